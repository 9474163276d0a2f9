//! A module, from its bytes to what instances are made of: decoded, validated and linked with the host's items.
//!
//! [`load`] is the one place where bytes of a stranger become a [`Linked`], for the script, for a call alone, and for
//! hosts. What is accepted is exactly what the standard calls a module (5), valid (3), within this host's limits, and with
//! imports that the host has (4.5.4).
#![tactic(auto)]

ghost use Rattle.std.specs.Prelude.{IfOk, IfErr};
ghost use Rattle.wh_model.specs.Linking.Accepting.{IsAccepted};
ghost use Rattle.wh_load.specs.Refusing.{view_linked, RefusesBytes};

mod error;

pub use error::LoadError;
use std::alloc::Global;
use wh_decode::decode;
use wh_imports::{Linked, link};
use wh_validate::validate;

/// Decodes, validates and links a module.
///
/// # Errors
/// The fault of the first of the three that refuses it: `Decode`, `Valid` or `Link`.
pub fn load(alloc: Global, bytes: &[u8]) -> Result<Linked, LoadError>
    ensures ok { IfOk result (λ linked. IsAccepted bytes.now (view_linked linked)) }
    ensures err { IfErr result (RefusesBytes bytes.now) }
{
    let decoded = match decode(alloc, bytes) {
        Ok(decoded) => decoded,
        Err(error) => return Err(LoadError::Decode(error)),
    };
    let valid = match validate(alloc, decoded) {
        Ok(valid) => valid,
        Err(error) => return Err(LoadError::Valid(error)),
    };
    match link(alloc, valid) {
        Ok(linked) => Ok(linked),
        Err(error) => Err(LoadError::Link(error)),
    }
}
