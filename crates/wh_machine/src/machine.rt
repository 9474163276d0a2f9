//! What a machine is made of.

ghost use Rattle.wh_syntax.specs.View.{view_module};
ghost use Rattle.wh_imports.specs.Records.{AreRecords};

use std::marker::Model;
use wh_bodies::{BranchEntry, SideTable};
use wh_control::{CallFrame, CallStack, ValueStack};
use wh_imports::{FuncRecord, Tag};
use wh_model::{HostFunc, Need, Trap};
use wh_syntax::{Instr, Module};

/// A linked module as it is run.
#[derive(Clone, Copy)]
pub struct Program<'a> {
    /// The module.
    pub module: &'a Module,
    /// The branch targets of each body.
    pub tables: &'a [SideTable],
    /// What is looked up of each function.
    pub records: &'a [FuncRecord],
    /// The functions that are imported.
    pub hosts: &'a [HostFunc],
    // The records are those of the module's functions.
    ghost recorded: { AreRecords (view_module module.now) records.now },
}

/// The code of one function.
#[derive(Clone, Copy)]
pub struct FunctionCode<'a> {
    /// The instructions in binary order.
    pub instrs: &'a [Instr],
    /// The labels of its `br_table`s.
    pub labels: &'a [u32],
    /// Beside each instruction where it leads to.
    pub entries: &'a [BranchEntry],
    /// Where the labels of `br_table`s lead to.
    pub pool: &'a [BranchEntry],
    /// The tag of each instruction, and `Past` after them.
    pub tags: &'a [Tag],
}

/// The words and the frames of calls.
#[derive(Drop)]
pub struct Stack {
    /// Their words.
    pub words: ValueStack,
    /// The frame of the innermost one.
    pub frame: CallFrame,
    /// Those that wait for it.
    pub waiting: CallStack,
}

/// A call that runs, or has ended: its words and frames, and whether it runs.
///
/// A run takes the stack out, so that it is a local variable of the loop, and puts it back.
#[derive(Drop)]
pub struct Machine {
    pub(crate) stack: Option<Stack>,
    pub(crate) running: bool,
}

impl Model for Machine {
    ghost use Rattle.std.specs.Prelude.{IsSome};
    ghost use Rattle.wh_machine.specs.MachineState.{MachineState, stack_in};

    ghost Value = { MachineState };

    ghost view = { λ m. record { stack = stack_in m.stack; running = m.running } };

    ghost invariant = { λ m. IsSome m.stack };
}

/// The outcome of a step, or of a run of steps.
#[derive(Clone, Copy, Debug, PartialEq, Eq)]
pub enum Stepped {
    /// One charged reduction, and all uncharged ones after it; of a run, all its fuel was taken and the call runs on.
    Charged,
    /// The call has ended.
    Done,
    /// The reduction ended in a trap.
    Trapped(Trap),
    /// The reduction wants bytes that aren't ready.
    NotReady(Need),
}

/// The outcome of one instruction.
#[derive(Clone, Copy, Debug, PartialEq, Eq)]
pub enum Exec {
    /// It was free, and the same function goes on.
    Free,
    /// It was charged, and the same function goes on.
    Charged,
    /// Another function goes on; it was charged, or not.
    Switched(bool),
    /// The outermost function has returned; it was charged, or not.
    Ended(bool),
    /// It has trapped.
    Trapped(Trap),
    /// It wants bytes that aren't ready, and nothing has changed.
    NotReady(Need),
}
