//! The check of a whole body.

ghost use Rattle.std.specs.Prelude.{◌≡◌, ◌≢◌, ◌+◌, ◌<◌, ◌≤◌, ◌^◌, ℕ, List, [], Option, Ok, Err, length, map, reverse, OnOk, IfOk, IfErr, IsTrue, ◌↔◌};
ghost use Rattle.std.specs.List.{AllByRecursion};
ghost use Rattle.wh_syntax.specs.Shown.{instr_of, InPool};
ghost use Rattle.wh_bodies.specs.CheckSteps.{run};
ghost use Rattle.wh_bodies.specs.CheckEnds.{started, whole_run, RunsTo, RunsFrom};
ghost use Rattle.wh_bodies.specs.ConstructEnds.{all_marks};
ghost use Rattle.wh_bodies.specs.BodyFaults.{IsOfBody, HasInstr};
ghost use Rattle.wh_bodies.specs.SideTables.{table_of};
ghost use Rattle.wh_bodies.specs.View.{view_around, view_context, view_side, state_of};
ghost use Rattle.wh_model.specs.Validity.Valid.{ValidBody};
ghost use Rattle.wh_model.specs.Validity.Heights.{FitsBody};
ghost use Rattle.wh_syntax.specs.View.{view_type, view_body};

use crate::context::{Around, Context};
use crate::fault::BodyFault;
use crate::labels::Label;
use crate::marks::{ConstructEnd, all_marks};
use crate::operands::Operands;
use crate::steps::{Checker, step};
use crate::table::{BranchEntry, SideTable};
use std::alloc::Global;
use wh_model::{MOST_LOCALS, Open, ValType, ValidKind};
use wh_syntax::{Body, FuncType, Instr};

/// An empty table with room for `count` entries.
fn room(alloc: Global, count: u32) -> Result<Vec<BranchEntry>, ValidKind>
    ensures ok { IfOk result (λ entries. entries.items ≡ []) }
    ensures err { IfErr result (λ k. k ≡ ValidKind.Memory) }
{
    match Vec::with_capacity(alloc, count as usize) {
        Ok(entries) => Ok(entries),
        Err(_) => Err(ValidKind::Memory),
    }
}

/// What is known before the first of `count` instructions.
fn start(
    alloc: Global,
    of: Option<ValType>,
    count: u32,
    marks: Vec<ConstructEnd>,
) -> Result<Checker, ValidKind>
    ensures ok { IfOk result (λ c. state_of c ≡ started of count (reverse marks.items)) }
    ensures err { IfErr result (λ k. k ≡ ValidKind.Memory) }
{
    let label = Label {
        kind: Open::Other,
        result: of,
        carries: of,
        place: count,
        height: 0,
        outer_floor: 0,
        outer_dead: false,
    };
    let mut labels = Vec::new(alloc);
    labels.push(label)?;
    Ok(Checker {
        operands: Operands {
            types: Vec::new(alloc),
            floor: 0,
            dead: false,
        },
        labels,
        marks,
        entries: room(alloc, count)?,
        pool: Vec::new(alloc),
    })
}

/// All instructions, one after the other.
fn check_all(
    around: &Around,
    instrs: &[Instr],
    targets: &[u32],
    checker: &mut Checker,
) -> Result<(), BodyFault>
    requires named { AllByRecursion (λ x. x < length around.now.context.types.now)
        around.now.context.funcs.now }
    requires in_pool { AllByRecursion (InPool targets.now) instrs.now }
    requires short { length instrs.now < 2 ^ 32 }
    ensures { RunsTo result (state_of checker.new)
        (run (view_around around.now) 0 (map (instr_of targets.now) instrs.now)
        (state_of checker.old)) }
{
    for at in 0..instrs.len() {
        match step(around, targets, checker, instrs[at]) {
            Ok(()) => {}
            Err(kind) => {
                return Err(BodyFault {
                    instr: at as u32,
                    kind,
                });
            }
        }
    }
    Ok(())
}

/// What is known before the first instruction, with the marks of all constructs.
fn prepare(alloc: Global, instrs: &[Instr], of: Option<ValType>) -> Result<Checker, ValidKind>
    ensures ok { IfOk result
        (λ c. (labels : List ℕ)
        → state_of c
        ≡ started of (length instrs.now)
        (all_marks 0 (map (instr_of labels) instrs.now)).done) }
    ensures short { OnOk result (length instrs.now < 2 ^ 32) }
    ensures err { IfErr result (λ k. k ≡ ValidKind.Memory) }
{
    let marks = all_marks(alloc, instrs)?;
    let checker = start(alloc, of, instrs.len() as u32, marks)?;
    Ok(checker)
}

/// What is known after all instructions of a body.
fn run_body(
    alloc: Global,
    around: &Around,
    instrs: &[Instr],
    targets: &[u32],
) -> Result<Checker, BodyFault>
    requires named { AllByRecursion (λ x. x < length around.now.context.types.now)
        around.now.context.funcs.now }
    requires in_pool { AllByRecursion (InPool targets.now) instrs.now }
    ensures { RunsFrom state_of result
        (whole_run (view_around around.now) (map (instr_of targets.now) instrs.now)) }
{
    let mut checker = match prepare(alloc, instrs, around.result) {
        Ok(checker) => checker,
        Err(kind) => return Err(before_all(kind)),
    };
    check_all(around, instrs, targets, &mut checker)?;
    Ok(checker)
}

/// Whether parameters and locals are no more than there may be.
fn few_locals(func_type: &FuncType, body: &Body) -> bool
    ensures { IsTrue result
        ↔ (length func_type.now.params.items + length body.now.locals.items ≤ 256) }
{
    let params = func_type.params.len();
    params <= MOST_LOCALS && body.locals.len() <= MOST_LOCALS - params
}

/// A fault that no instruction has: it is named at the first one.
fn before_all(kind: ValidKind) -> BodyFault
    ensures { result ≡ record { instr = 0; kind = kind } }
{
    BodyFault { instr: 0, kind }
}

/// Checks a body of this type, and finds where its branches lead.
///
/// # Errors
/// The fault of the first instruction in binary order at which the check fails, its opcodes counted from 0, `else` and
/// `end` included: `BadType`, `Index`, `Align`, `Arity`, `Height`, `ConstImmutable`; `Limits` at the first one where
/// parameters and locals are more than 256; and `Memory` where a growth was refused.
pub fn check_body(
    alloc: Global,
    context: &Context,
    func_type: &FuncType,
    body: &Body,
) -> Result<SideTable, BodyFault>
    requires named { AllByRecursion (λ x. x < length context.now.types.now) context.now.funcs.now }
    requires one_result { length func_type.now.results.items ≤ 1 }
    // The body is valid with this type (3.4.3).
    ensures valid { OnOk result
        (ValidBody (view_context context.now) (view_type func_type.now) (view_body body.now)) }
    // It has few locals, and no more operands at any place than there may be.
    ensures fits { OnOk result
        (FitsBody (view_context context.now) (view_type func_type.now) (view_body body.now)) }
    // Unless memory was refused, a body that is refused isn't valid, or doesn't fit.
    ensures complete { IfErr result
        (λ e. e.kind ≢ ValidKind.Memory
        → ValidBody (view_context context.now) (view_type func_type.now)
        (view_body body.now)
        → FitsBody (view_context context.now) (view_type func_type.now) (view_body body.now)
        → ⊥) }
    // Another fault than out of memory is one of those that a body can have.
    ensures kinds { IfErr result (λ e. e.kind ≢ ValidKind.Memory → IsOfBody e.kind) }
    // It names an instruction of the body.
    ensures place { IfErr result
        (λ e. e.kind ≢ ValidKind.Memory → HasInstr (view_body body.now) e.instr) }
    // The table is that of the body.
    ensures table { IfOk result
        (λ found. view_side found
        ≡ table_of (view_context context.now) (view_type func_type.now)
        (view_body body.now)) }
{
    if !few_locals(func_type, body) {
        return Err(before_all(ValidKind::Limits));
    }
    let flat = body.code.flat();
    let around = Around {
        context: *context,
        params: &func_type.params,
        locals: &body.locals,
        result: func_type.results.first().copied(),
    };
    let checker = run_body(alloc, &around, flat.instrs, flat.labels)?;
    Ok(SideTable {
        entries: checker.entries,
        pool: checker.pool,
    })
}
