//! Machines, and the calls that they begin with (4.5.5).

ghost use Rattle.std.specs.Prelude.{◌≡◌, ◌+◌, ◌<◌, ◌≤◌, [], ◌++◌, None, Some, false, length, replicate, reverse, slice_get, IfOk};
ghost use Rattle.std.specs.List.{AllByRecursion};
ghost use Rattle.wh_control.specs.Represents.{Func};
ghost use Rattle.wh_control.specs.ControlSteps.{begun};
ghost use Rattle.wh_control.specs.Parts.{funcs_in};
ghost use Rattle.wh_machine.specs.Opening.{CanBegin, BeginsCall};
ghost use Rattle.wh_machine.specs.Program.{parts_in};
ghost use Rattle.wh_machine.specs.MachineRuns.{linked_parts, IsSettledIn};
ghost use Rattle.wh_machine.specs.Executing.{calls_of};

use crate::control::{code_of, frame_size};
use crate::machine::{Machine, Program, Stack};
use crate::stepping::{program_of, settle};
use std::alloc::{AllocError, Global};
use wh_control::{CallFrame, CallStack, ValueStack};
use wh_imports::Linked;

impl Machine {
    /// Creates a machine that runs no call. Reserves the memory for all words and frames of any call, so that none is
    /// allocated later.
    ///
    /// # Errors
    /// `AllocError` if this memory was refused.
    pub fn new(alloc: Global) -> Result<Machine, AllocError>
        ensures { IfOk result (λ m. m.running ≡ false) }
    {
        let words = ValueStack::reserve(alloc)?;
        let waiting = CallStack::reserve(alloc)?;
        let frame = CallFrame {
            func: 0,
            base: 0,
            operands: 0,
            place: 0,
        };
        Ok(Machine {
            stack: Some(Stack {
                words,
                frame,
                waiting,
            }),
            running: false,
        })
    }

    /// Returns the result of a call that has ended, if its function has one; an i32 in the low 32 bits.
    #[inline(always)]
    pub fn result(&self) -> Option<u64>
        ensures { result ≡ slice_get self.now.stack.words 0 }
    {
        let Some(stack) = &self.stack else {
            return None;
        };
        if stack.words.len() == 0 {
            return None;
        }
        Some(stack.words.top())
    }

    /// Tells whether the call is running.
    #[inline(always)]
    pub fn is_running(&self) -> bool
        ensures { result ≡ self.now.running }
    {
        self.running
    }
}

/// The first frame of a call, and its words.
fn open(program: &Program<'_>, stack: &mut Stack, func: usize, args: &[u64])
    requires there { (g : Func) × (slice_get (funcs_in (parts_in program.now)) func ≡ Some g) }
    requires named { AllByRecursion (λ x. x < length program.now.module.now.types.items)
        program.now.module.now.funcs.items }
    requires params { (g : Func) → slice_get (funcs_in (parts_in program.now)) func ≡ Some g
        → length g.type.params ≡ length args.now }
    requires few { (g : Func) → slice_get (funcs_in (parts_in program.now)) func ≡ Some g
        → length g.type.params + length g.body.locals ≤ 256 }
    ensures { (g : Func) → slice_get (funcs_in (parts_in program.now)) func ≡ Some g
        → calls_of stack.new
        ≡ record {
          words = replicate (length g.body.locals) 0
              ++ reverse args.now;
          now = Some (begun func 0 (length g.type.params + length g.body.locals));
          waiting = [];
        } }
{
    let (params, locals) = frame_size(program, func);
    stack.words.clear();
    stack.words.push_all(args);
    stack.words.push_zeros(locals);
    stack.waiting.clear();
    stack.frame = CallFrame {
        func,
        base: 0,
        operands: params + locals,
        place: 0,
    };
}

/// Begins a call of one of the module's own functions: what its invocation is, and all uncharged reductions after it
/// (4.4.7, 4.5.5). The arguments are numbers of the bits of their types. Whatever the machine did before is given up.
pub fn begin(linked: &Linked, machine: &mut Machine, func: u32, args: &[u64])
    requires { CanBegin (linked_parts linked.now) func args.now }
    ensures begun { BeginsCall (linked_parts linked.now) func args.now machine.new }
    ensures settled { IsSettledIn (linked_parts linked.now) machine.new }
{
    let program = program_of(linked);
    let own = func as usize - program.hosts.len();
    let Some(stack) = &mut machine.stack else {
        unreachable!();
    };
    open(&program, stack, own, args);
    let code = code_of(&program, stack.frame);
    machine.running = settle(&program, code, stack);
}
