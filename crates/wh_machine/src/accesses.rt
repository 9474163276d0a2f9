//! What the machine does at instructions of globals (4.4.3) and of the memory (4.4.4).

ghost use Rattle.std.specs.Prelude.{◌≡◌, ℕ, ◌^◌, ◌<◌, List, ◌∷◌, length};
ghost use Rattle.wh_model.specs.declared.memory.Grown.TheVariants.{Done, Refused};
ghost use Rattle.wh_syntax.specs.declared.instr.Instr.TheVariants.{GlobalGet, GlobalSet, Load, Store as StoreAt, MemorySize, MemoryGrow};
ghost use Rattle.wh_machine.specs.declared.machine.Exec.TheVariants.{Charged};
ghost use Rattle.wh_machine.specs.Alone.{ComesNextInStore, IsExecInStore, ComesNextInMemory, IsExecInMemory, FoundReadyInMemory};
ghost use Rattle.wh_machine.specs.Waiting.{IsUncharged};

use crate::bytes::{Loaded, read, write};
use crate::instructions::advance;
use crate::machine::{Exec, Stack};
use wh_control::{Store, ValueStack};
use wh_linmem::LinearMem;
use wh_model::{Got, Grown, LoadOp, StoreOp, Trap};

/// Executes `global.get`.
#[inline(always)]
pub fn exec_global_get(stack: &mut Stack, store: &Store, global: u32)
    requires { ComesNextInStore stack.old store.now (GlobalGet global) }
    ensures { IsExecInStore stack.old store.now (GlobalGet global) Charged stack.new store.now }
{
    stack.words.push(store.globals[global as usize]);
    advance(stack);
}

/// Executes `global.set`.
#[inline(always)]
pub fn exec_global_set(stack: &mut Stack, store: &mut Store, global: u32)
    requires { ComesNextInStore stack.old store.old (GlobalSet global) }
    ensures { IsExecInStore stack.old store.old (GlobalSet global) Charged stack.new store.new }
{
    store.globals[global as usize] = stack.words.pop();
    advance(stack);
}

/// Executes `memory.size`, which pushes the size in pages of 65536 bytes.
#[inline(always)]
pub fn exec_memory_size<M: LinearMem>(stack: &mut Stack, memory: &M) -> Exec
    requires { ComesNextInMemory stack.old (M.bytes memory.now) (M.limit memory.now) MemorySize }
    ensures { IsExecInMemory (M.ready memory.now) stack.old (M.bytes memory.now)
        (M.limit memory.now) MemorySize result stack.new (M.bytes memory.now) }
{
    stack.words.push(u64::from(memory.size()));
    advance(stack);
    Exec::Charged
}

/// The word that `memory.grow` pushes: how many pages there were, or 4294967295 where it was refused.
#[inline(always)]
fn answer_word(grown: Grown) -> u64
    ensures done { (count : ℕ) → grown ≡ Done count → result ≡ count }
    ensures refused { grown ≡ Refused → result ≡ 4294967295 }
    ensures fits { result < 2 ^ 32 }
{
    match grown {
        Grown::Done(count) => u64::from(count),
        Grown::Refused => 0xFFFF_FFFF,
    }
}

/// Executes `memory.grow`, which pushes the former size in pages of 65536 bytes, or 4294967295 if the new size would
/// pass the memory's limit.
#[inline(always)]
pub fn exec_memory_grow<M: LinearMem>(stack: &mut Stack, memory: &mut M) -> Exec
    requires { ComesNextInMemory stack.old (M.bytes memory.old) (M.limit memory.old) MemoryGrow }
    ensures executed { IsExecInMemory (M.ready memory.old) stack.old (M.bytes memory.old)
        (M.limit memory.old) MemoryGrow result stack.new (M.bytes memory.new) }
    ensures keeps { M.keeps memory.old memory.new }
    ensures waits { IsUncharged result → memory.new ≡ memory.old }
{
    // So the bytes are known to be whole pages.
    let _ = memory.size();
    let count = stack.words.pop() as u32;
    let answer = answer_word(memory.grow(count));
    stack.words.push(answer);
    advance(stack);
    Exec::Charged
}

/// Returns the second word from the top.
#[inline(always)]
pub fn second(words: &ValueStack) -> u64
    requires { 1 < length words.now }
    ensures { (x y : ℕ) (rest : List ℕ) → words.now ≡ x ∷ y ∷ rest → result ≡ y }
{
    words.get(words.len() - 2)
}

/// Executes a load at the address that is the top word plus `offset` (the sum doesn't wrap). Traps if not all of its
/// bytes are in the memory; if they aren't ready, returns `NotReady` and changes nothing.
#[inline(always)]
pub fn exec_load<M: LinearMem>(
    stack: &mut Stack,
    memory: &mut M,
    op: LoadOp,
    align: u32,
    offset: u32,
) -> Exec
    requires { ComesNextInMemory stack.old (M.bytes memory.old) (M.limit memory.old)
        (Load op align offset) }
    ensures executed { IsExecInMemory (M.ready memory.old) stack.old (M.bytes memory.old)
        (M.limit memory.old) (Load op align offset) result stack.new (M.bytes memory.new) }
    ensures found { FoundReadyInMemory (M.ready memory.old) stack.old (M.bytes memory.old)
        (M.limit memory.old) (Load op align offset) result }
    ensures keeps { M.keeps memory.old memory.new }
    ensures waits { IsUncharged result → memory.new ≡ memory.old }
{
    let _ = align;
    let address = stack.words.top() + u64::from(offset);
    match read(memory, op, address) {
        Loaded::Value(number) => {
            let _ = stack.words.pop();
            stack.words.push(number);
            advance(stack);
            Exec::Charged
        }
        Loaded::Trap => Exec::Trapped(Trap::OutOfBounds),
        Loaded::NotReady(need) => Exec::NotReady(need),
    }
}

/// Executes a store of the top word at the address that is the word beneath it plus `offset` (the sum doesn't wrap).
/// Traps if not all of its bytes are in the memory; if they aren't ready, returns `NotReady` and changes nothing.
#[inline(always)]
pub fn exec_store<M: LinearMem>(
    stack: &mut Stack,
    memory: &mut M,
    op: StoreOp,
    align: u32,
    offset: u32,
) -> Exec
    requires { ComesNextInMemory stack.old (M.bytes memory.old) (M.limit memory.old)
        (StoreAt op align offset) }
    ensures executed { IsExecInMemory (M.ready memory.old) stack.old (M.bytes memory.old)
        (M.limit memory.old) (StoreAt op align offset) result stack.new (M.bytes memory.new) }
    ensures found { FoundReadyInMemory (M.ready memory.old) stack.old (M.bytes memory.old)
        (M.limit memory.old) (StoreAt op align offset) result }
    ensures keeps { M.keeps memory.old memory.new }
    ensures waits { IsUncharged result → memory.new ≡ memory.old }
{
    let _ = align;
    let word = stack.words.top();
    let address = second(&stack.words) + u64::from(offset);
    match write(memory, op, address, word) {
        Got::Value => {
            let _ = stack.words.pop();
            let _ = stack.words.pop();
            advance(stack);
            Exec::Charged
        }
        Got::Trap => Exec::Trapped(Trap::OutOfBounds),
        Got::NotReady(need) => Exec::NotReady(need),
    }
}
