//! The host's functions (4.4.7, "Invocation of host functions"), on words, store and memory.

ghost use Rattle.std.specs.Prelude.{◌≡◌, ℕ, ◌+◌, ◌^◌, ◌<◌, ◌≤◌, List, ◌∷◌, length, get_or};
ghost use Rattle.std.specs.Vec.{vec_capacity};
ghost use Rattle.wh_model.specs.Execution.Store.{output_room};
ghost use Rattle.wh_machine.specs.HostFunctions.{Puts, EmitsOnto, HasOperands, HostTurn};
ghost use Rattle.wh_machine.specs.Waiting.{EmitWaits, IsUncharged};

use crate::bytes::{Emitted, emit, put};
use crate::instructions::advance;
use crate::machine::{Exec, Stack};
use wh_control::{Store, ValueStack};
use wh_linmem::LinearMem;
use wh_model::{HostFunc, MOST_EMITTED, OUTPUT_ROOM, Trap};

/// Calls `input`: replaces the top word, an index, by the input of that index, or by 0 if there is none.
#[inline(always)]
pub fn host_input(words: &mut ValueStack, inputs: &[u64])
    requires { (i : ℕ) × (rest : List ℕ) × (words.old ≡ i ∷ rest) }
    ensures { (i : ℕ) (rest : List ℕ) → words.old ≡ i ∷ rest
        → (words.new ≡ get_or inputs.now i 0 ∷ rest) × (get_or inputs.now i 0 < 2 ^ 64) }
{
    let index = words.pop() as usize;
    let word = if index < inputs.len() {
        inputs[index]
    } else {
        0
    };
    words.push(word);
}

/// Calls `put`: pops a word and appends its 8 bytes to the output; tells whether there was room.
#[inline(always)]
pub fn host_put(words: &mut ValueStack, store: &mut Store) -> bool
    requires operand { (x : ℕ) × (rest : List ℕ) × (words.old ≡ x ∷ rest) }
    requires small { length store.old.output.items ≤ output_room }
    requires capacity { output_room ≤ vec_capacity store.old.output }
    ensures puts { (x : ℕ) (rest : List ℕ) → words.old ≡ x ∷ rest
        → Puts x rest store.old result words.new store.new }
{
    let word = words.pop();
    if store.output.len() + 8 > OUTPUT_ROOM {
        return false;
    }
    put(&mut store.output, word);
    true
}

/// Calls `emit`: pops a length and an address and appends these bytes of the memory to the output. If they aren't
/// ready, puts the operands back.
#[inline(always)]
pub fn host_emit<M: LinearMem>(words: &mut ValueStack, store: &mut Store, memory: &mut M) -> Emitted
    requires operands { (count i : ℕ) × (rest : List ℕ) × (words.old ≡ count ∷ i ∷ rest)
        × (count < 2 ^ 32) × (i < 2 ^ 32) }
    requires small { length store.old.output.items ≤ output_room }
    requires capacity { output_room ≤ vec_capacity store.old.output }
    ensures emits { (count i : ℕ) (rest : List ℕ) → words.old ≡ count ∷ i ∷ rest
        → EmitsOnto (M.ready memory.old) (M.bytes memory.old) i count rest words.old store.old
        result words.new store.new }
    ensures bytes { M.bytes memory.new ≡ M.bytes memory.old }
    ensures keeps { M.keeps memory.old memory.new }
    ensures waits { EmitWaits result → memory.new ≡ memory.old }
{
    let count = words.pop();
    let at = words.pop();
    if count > MOST_EMITTED {
        return Emitted::Trap(Trap::HostTooLong);
    }
    match emit(memory, &mut store.output, at, count as usize) {
        Emitted::Done => Emitted::Done,
        Emitted::Trap(trap) => Emitted::Trap(trap),
        Emitted::NotReady(need) => {
            words.push(at);
            words.push(count);
            Emitted::NotReady(need)
        }
    }
}

/// Calls a host function, whose arguments are the top words.
#[inline(always)]
pub fn call_host<M: LinearMem>(
    func: HostFunc,
    stack: &mut Stack,
    store: &mut Store,
    memory: &mut M,
) -> Exec
    requires operands { HasOperands func stack.old.words }
    requires place { stack.old.frame.place + 1 < 2 ^ 64 }
    requires small { length store.old.output.items ≤ output_room }
    requires capacity { output_room ≤ vec_capacity store.old.output }
    ensures executed { HostTurn func (M.ready memory.old) (M.bytes memory.old) stack.old store.old
        result stack.new store.new }
    ensures bytes { M.bytes memory.new ≡ M.bytes memory.old }
    ensures keeps { M.keeps memory.old memory.new }
    ensures waits { IsUncharged result → memory.new ≡ memory.old }
{
    match func {
        HostFunc::Input => {
            host_input(&mut stack.words, &store.inputs);
            advance(stack);
            Exec::Charged
        }
        HostFunc::Put => {
            if !host_put(&mut stack.words, store) {
                return Exec::Trapped(Trap::HostFull);
            }
            advance(stack);
            Exec::Charged
        }
        HostFunc::Emit => match host_emit(&mut stack.words, store, memory) {
            Emitted::Done => {
                advance(stack);
                Exec::Charged
            }
            Emitted::Trap(trap) => Exec::Trapped(trap),
            Emitted::NotReady(need) => Exec::NotReady(need),
        },
    }
}
