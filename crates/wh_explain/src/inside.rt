//! What a fault of the validator is about that is in a function.

use crate::detail::{Detail, Mismatch};
use crate::indexed::{IndexSpace, Unnamed, function_type, imported_functions};
use crate::limit::Limit;
use crate::operands::{Known, Surroundings, TypeStack};
use std::alloc::{AllocError, Global};
use wh_model::ValidKind;
use wh_syntax::{Instr, Module};

/// The instruction of a function that is at fault, and what stands before it.
#[derive(Drop)]
struct Fault<'a> {
    around: Surroundings<'a>,
    stack: &'a TypeStack,
    instr: Instr,
}

/// Finds the first label of a `br_table` that names nothing, the default one being looked at first.
fn unnamed_target(fault: &Fault<'_>, first: u32, count: u32) -> Option<Unnamed> {
    let labels = fault.around.body.code.flat().labels;
    let labels = labels.get(first as usize..)?;
    let most = fault.stack.label_count();
    let last = *labels.get(count as usize)?;
    if let Some(unnamed) = Unnamed::among(IndexSpace::Label, last, most) {
        return Some(unnamed);
    }
    for label in labels.iter().take(count as usize) {
        if let Some(unnamed) = Unnamed::among(IndexSpace::Label, *label, most) {
            return Some(unnamed);
        }
    }
    None
}

/// Finds the index of an instruction that names nothing.
fn unnamed_by(fault: &Fault<'_>) -> Option<Unnamed> {
    let around = fault.around;
    let module = around.module;
    match fault.instr {
        Instr::LocalGet(index) | Instr::LocalSet(index) | Instr::LocalTee(index) => {
            let params = around.func_type.params.len();
            let count = params.saturating_add(around.body.locals.len());
            Unnamed::among(IndexSpace::Local, index, count)
        }
        Instr::GlobalGet(index) | Instr::GlobalSet(index) => {
            Unnamed::in_module(module, IndexSpace::Global, index)
        }
        Instr::Call(index) => Unnamed::in_module(module, IndexSpace::Function, index),
        Instr::CallIndirect(index) => Unnamed::in_module(module, IndexSpace::Table, 0).or_else(
            || Unnamed::in_module(module, IndexSpace::Type, index),
        ),
        Instr::Load { .. } | Instr::Store { .. } | Instr::MemorySize | Instr::MemoryGrow => {
            Unnamed::in_module(module, IndexSpace::Memory, 0)
        }
        Instr::Br(label) | Instr::BrIf(label) => {
            Unnamed::among(IndexSpace::Label, label, fault.stack.label_count())
        }
        Instr::BrTable { first, count } => unnamed_target(fault, first, count),
        _ => None,
    }
}

/// Finds the first label of a `br_table` that carries another type than the default one: what that one carries, and what the
/// label does.
fn other_target(fault: &Fault<'_>, first: u32, count: u32) -> Option<(Known, Known)> {
    let labels = fault.around.body.code.flat().labels;
    let labels = labels.get(first as usize..)?;
    let wanted = fault.stack.construct(*labels.get(count as usize)?)?.carries;
    for label in labels.iter().take(count as usize) {
        let found = fault.stack.construct(*label)?.carries;
        if found != wanted {
            return Some((wanted, found));
        }
    }
    None
}

/// A type as a list; an empty one where there is none.
fn listed(alloc: Global, of: Option<Known>) -> Result<Vec<Known>, AllocError> {
    match of {
        Some(known) => Vec::from_slice(alloc, &[known]),
        None => Ok(Vec::new(alloc)),
    }
}

/// Gives the last `count` of these, or all where there are fewer.
fn last_of(types: &[Known], count: usize) -> &[Known] {
    types
        .get(types.len().saturating_sub(count)..)
        .unwrap_or(types)
}

/// Finds which types an instruction has to find, and which it does.
fn mismatch_of(alloc: Global, fault: &Fault<'_>) -> Result<Mismatch, AllocError> {
    let stack = fault.stack;
    if let Instr::BrTable { first, count } = fault.instr
        && let Some((wanted, found)) = other_target(fault, first, count)
    {
        return Ok(Mismatch {
            wanted: listed(alloc, wanted.map(Some))?,
            found: listed(alloc, found.map(Some))?,
        });
    }
    let wanted = stack.taken(alloc, fault.around, fault.instr)?;
    let own = stack.own_operands();
    let is_bare_if = stack.construct(0).is_some_and(|c| c.is_then);
    let found = match fault.instr {
        // An if without an else leaves nothing where its condition is 0.
        Instr::End if is_bare_if && own == wanted.as_slice() => &[],
        Instr::Else | Instr::End => own,
        _ => last_of(own, wanted.len()),
    };
    Ok(Mismatch {
        found: Vec::from_slice(alloc, found)?,
        wanted,
    })
}

/// Tells what a fault of this kind is about, at an instruction.
fn detail_at(alloc: Global, fault: &Fault<'_>, kind: ValidKind) -> Result<Detail, AllocError> {
    match kind {
        ValidKind::Index => Ok(unnamed_by(fault).map_or(Detail::None, Detail::Unnamed)),
        ValidKind::BadType | ValidKind::Arity => Ok(Detail::Types(mismatch_of(alloc, fault)?)),
        _ => Ok(Detail::None),
    }
}

/// Finds what stands around the instructions of a function; none where the module defines no such function.
fn surroundings(module: &Module, function: u32) -> Option<Surroundings<'_>> {
    let at = (function as usize).checked_sub(imported_functions(module))?;
    Some(Surroundings {
        module,
        func_type: function_type(module, function)?,
        body: module.bodies.get(at)?,
    })
}

/// Tells what a fault of the validator is about that lies at an instruction of a function.
///
/// # Errors
/// Where a growth of memory is refused.
pub fn detail_inside(
    alloc: Global,
    module: &Module,
    function: u32,
    instruction: u32,
    kind: ValidKind,
) -> Result<Detail, AllocError> {
    match kind {
        ValidKind::Height => return Ok(Detail::Limit(Limit::Operands)),
        ValidKind::Limits => return Ok(Detail::Limit(Limit::ParametersAndLocals)),
        _ => {}
    }
    let Some(around) = surroundings(module, function) else {
        return Ok(Detail::None);
    };
    let instrs = around.body.code.flat().instrs;
    let Some(instr) = instrs.get(instruction as usize).copied() else {
        return Ok(Detail::None);
    };
    let stack = TypeStack::before(alloc, around, instruction)?;
    let fault = Fault {
        around,
        stack: &stack,
        instr,
    };
    detail_at(alloc, &fault, kind)
}
