//! Why bytes aren't accepted as a module.

use thiserror::Error;
use wh_imports::LinkError;
use wh_model::DecodeError;
use wh_validate::ValidError;

/// Why bytes aren't accepted as a module.
#[derive(Clone, Copy, Debug, PartialEq, Eq, Error)]
pub enum LoadError {
    /// They aren't a module, or pass a limit of the format.
    #[error("the bytes aren't a module: {0}")]
    Decode(DecodeError),
    /// The module isn't valid, or passes a limit.
    #[error("the module isn't valid: {0}")]
    Valid(ValidError),
    /// It imports what the host doesn't offer.
    #[error("the module can't be linked: {0}")]
    Link(LinkError),
}
