//! What all that an instance begins with follows from.

use crate::parameters::Parameters;
use wh_model::HostGlobal;
use wh_syntax::Module;

/// What all that an instance begins with follows from.
#[derive(Clone, Copy)]
pub struct Basis<'a> {
    /// The module.
    pub module: &'a Module,
    /// The globals that it imports.
    pub imported: &'a [HostGlobal],
    /// What the owner of the instance gives it.
    pub parameters: &'a Parameters,
}
