//! The numbers that `wh_instance` takes as arguments of functions, and the words that a call has of them.

ghost use Rattle.std.specs.Prelude.{IfOk};
ghost use Rattle.wh_instance.specs.Invoked.{IsSomeTenant};

use crate::tables::agree;
use anyhow::{Result, ensure};
use std::alloc::Global;
use wh_imports::Linked;
use wh_initial::{Parameters, instantiate};
use wh_instance::{HostInstance, takes};
use wh_load::load;
use wh_machine::Machine;

// A module with five functions that do nothing: of an i32; of an i64; of nothing; of an i64 and an i32; and `f`, of an
// i32, an i64, an i32, an i64 and an i32.
const MODULE: [u8; 68] = [
    0x00, 0x61, 0x73, 0x6d, 0x01, 0x00, 0x00, 0x00, 0x01, 0x19, 0x05, 0x60, 0x01, 0x7f, 0x00, 0x60,
    0x01, 0x7e, 0x00, 0x60, 0x00, 0x00, 0x60, 0x02, 0x7e, 0x7f, 0x00, 0x60, 0x05, 0x7f, 0x7e, 0x7f,
    0x7e, 0x7f, 0x00, 0x03, 0x06, 0x05, 0x00, 0x01, 0x02, 0x03, 0x04, 0x07, 0x05, 0x01, 0x01, 0x66,
    0x00, 0x04, 0x0a, 0x10, 0x05, 0x02, 0x00, 0x0b, 0x02, 0x00, 0x0b, 0x02, 0x00, 0x0b, 0x02, 0x00,
    0x0b, 0x02, 0x00, 0x0b,
];

// A function, what it is given, and whether it takes that.
const TAKEN: [(u32, &[i128], bool); 13] = [
    (0, &[-2_147_483_648], true),
    (0, &[4_294_967_295], true),
    (0, &[-2_147_483_649], false),
    (0, &[4_294_967_296], false),
    (1, &[-9_223_372_036_854_775_808], true),
    (1, &[18_446_744_073_709_551_615], true),
    (1, &[-9_223_372_036_854_775_809], false),
    (1, &[18_446_744_073_709_551_616], false),
    (2, &[], true),
    (3, &[4_294_967_296, 0], true),
    (3, &[0, 4_294_967_296], false),
    (3, &[0], false),
    (3, &[0, 0, 0], false),
];

// What `f` is given, and the words that it gets.
const GIVEN: [i128; 5] = [
    -1,
    -1,
    -2_147_483_648,
    -9_223_372_036_854_775_808,
    4_294_967_295,
];

const WORDS: [u64; 5] = [
    0xFFFF_FFFF,
    0xFFFF_FFFF_FFFF_FFFF,
    0x8000_0000,
    0x8000_0000_0000_0000,
    0xFFFF_FFFF,
];

fn wrongly_taken(linked: &Linked) -> Option<usize> {
    for (row, (func, given, taken)) in TAKEN.iter().enumerate() {
        if takes(linked, *func, given) != *taken {
            return Some(row);
        }
    }
    None
}

// An instance of the module.
fn begin(alloc: Global, linked: &Linked) -> Result<HostInstance>
    ensures { IfOk result (λ tenant. IsSomeTenant linked.now tenant) }
{
    ensure!(linked.module().segments.len() <= 1024, "too many segments");
    let parameters = Parameters {
        base: 0,
        salt: 0,
        inputs: Vec::new(alloc),
        page_limit: 0,
    };
    let begun = instantiate(alloc, linked, parameters)?;
    let machine = Machine::new(alloc)?;
    Ok(HostInstance::new(alloc, linked, begun, machine, 0)?)
}

// Whether a call of `f` has these words.
fn has_words(alloc: Global, linked: &Linked) -> Result<bool> {
    let mut tenant = begin(alloc, linked)?;
    let at = tenant.invoke(alloc, linked, "f", &GIVEN, 0)?;
    match tenant.journal().call(at as usize) {
        Some(call) => Ok(call.words() == WORDS.as_slice()),
        None => Ok(false),
    }
}

/// Looks at each answer: how many they are.
pub fn check(alloc: Global) -> Result<usize> {
    let linked = load(alloc, &MODULE)?;
    agree("arguments", wrongly_taken(&linked))?;
    ensure!(has_words(alloc, &linked)?, "a call has other words");
    Ok(TAKEN.len() + 1)
}
