//! Modules of the binary format (section 5 of the standard): bytes to a `Module`, or the first fault.
#![tactic(auto)]

ghost use Rattle.std.specs.Prelude.{◌≢◌, ℕ, IfOk, IfErr, Ok};
ghost use Rattle.wh_model.specs.Format.Syntax as model;
ghost use Rattle.wh_model.specs.Format.Spelling.{Spells, Small, IsBroken};
ghost use Rattle.wh_leb.specs.Reading.{Gives};
ghost use Rattle.wh_syntax.specs.View.{view_module};
ghost use Rattle.wh_decode.specs.ReadingModule.{module_of};
ghost use Rattle.wh_decode.specs.Promises.{IsFault};
ghost use Rattle.wh_model.specs.declared.faults.FaultKind.{FaultKind};

mod bodies;
mod chain;
mod customs;
mod items;
mod laws;
mod lists;
mod parts;
mod sections;
mod types;
mod windows;

use crate::chain::{empty, from_types, preamble};
pub use crate::laws::one_meaning;
use std::alloc::Global;
use wh_leb::fault;
use wh_model::{DecodeError, FaultKind};
use wh_syntax::Module;

const MOST_BYTES: usize = 1048576;

#[tactic(auto, unfolding(crate::specs::ReadingModule::module_of, crate::specs::ReadingModule::module_at))]
fn read_module(alloc: Global, bytes: &[u8]) -> Result<Module, DecodeError>
    ensures exact { Gives view_module result (module_of bytes.now) }
{
    if bytes.len() > MOST_BYTES {
        return fault(FaultKind::Limit, MOST_BYTES);
    }
    let next = preamble(bytes, 0)?;
    let (module, _) = from_types(alloc, bytes, next, empty(alloc))?;
    Ok(module)
}

/// Decodes a module of the binary format.
///
/// Succeeds exactly if the bytes are a spelling of a module by section 5 of the W3C WebAssembly Core Specification 1.0,
/// without floating point, and within this host's limits: 1048576 bytes, 1024 types of 256 parameters, 256 imports,
/// 4096 functions, 1024 globals, exports and data segments, 256 element segments, and in a function 256 locals besides
/// its parameters, 65536 instructions, 256 nested constructs, 4096 labels of a `br_table`.
///
/// # Errors
/// The first fault of the bytes and its offset; no bytes have two. `FaultKind::Memory`, at the offset reached, only if
/// an allocation failed.
pub fn decode(alloc: Global, bytes: &[u8]) -> Result<Module, DecodeError>
    // What is decoded is spelled so, within the limits.
    ensures found { IfOk result
        (λ m. Spells bytes.now (view_module m) × Small bytes.now (view_module m)) }
    // What is spelled so within the limits is decoded, unless memory runs out.
    ensures only { (m : model.Module) → Spells bytes.now m → Small bytes.now m
        → Gives view_module result (Ok m) }
    // A fault is the first one, of this kind and at this place, unless memory runs out.
    ensures fault { IfErr result
        (λ e. e.kind ≢ FaultKind.Memory → IsBroken bytes.now e.kind e.offset) }
    // Where the bytes break, that fault is found, unless memory runs out.
    ensures refused { (kind : FaultKind) (offset : ℕ) → IsBroken bytes.now kind offset
        → IsFault result kind offset }
{
    read_module(alloc, bytes)
}
