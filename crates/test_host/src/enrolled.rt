// How many calls may be open, and what a roll lists.

use crate::modules::{ENDLESS, SEVEN};
use anyhow::{Result, ensure};
use std::alloc::Global;
use wh_host::{Host, HostError, ModuleId, Params, Quota, Roll, RollInstance, Suspension};
use wh_host_model::TurnEnd;
use wh_space_model::{InstId, Tax};

// A host of many frames and slots.
fn host_of_many(alloc: Global) -> Result<Host> {
    Ok(Host::new(alloc, 1024, 4096, Tax { num: 3, den: 4 })?)
}

// An instance with a minimum of `min` frames.
fn admit(host: &mut Host, alloc: Global, of: ModuleId, min: u64) -> Result<InstId> {
    let params = Params {
        quota: Quota {
            shares: 100,
            min_frames: min,
            max_frames: 16,
        },
        fuel: 0,
        base: 0,
        salt: 0,
        inputs: Vec::new(alloc),
    };
    Ok(host.admit(alloc, of, params)?)
}

// The number of the fault of one call more than are taken.
fn one_too_many(host: &mut Host, alloc: Global, id: InstId) -> Option<u8> {
    host.invoke(alloc, id, "f", &[], 0)
        .err()
        .map(HostError::number)
}

// Opens 1024 calls of one instance, and then one more.
fn open_calls(host: &mut Host, alloc: Global) -> Result<()> {
    let seven = host.load(alloc, &SEVEN)?;
    let a = admit(host, alloc, seven, 2)?;
    for at in 1..1025 {
        let call = host.invoke(alloc, a, "f", &[], 0)?;
        ensure!(call == at, "call {at} is at another place");
    }
    let fault = one_too_many(host, alloc, a);
    ensure!(fault == Some(4), "one more call: {fault:?}");
    Ok(())
}

/// Checks that 1024 calls may be open, and no more.
pub fn open_most(alloc: Global) -> Result<()> {
    let mut host = host_of_many(alloc)?;
    open_calls(&mut host, alloc)
}

// Whether it is the endless module's instance with a call open that waits for fuel, after the start.
fn is_endless(enrolled: &RollInstance, id: InstId, of: ModuleId) -> bool {
    let params = &enrolled.params;
    enrolled.id == id
        && enrolled.of == of
        && (params.quota.min_frames, params.quota.max_frames) == (3, 16)
        && (enrolled.calls, enrolled.copied, enrolled.open_calls) == (2, 0, 1)
        && !enrolled.dead
        && enrolled.waiting_for == Some(Suspension::Fuel)
}

// Whether a roll lists the endless module alone, and that one instance of the two.
fn lists_all(roll: &Roll, id: InstId, of: ModuleId) -> bool {
    let modules = roll.modules();
    let instances = roll.instances();
    (roll.next(), roll.tickets()) == (2, 0)
        && modules.len() == 1
        && modules[0].id == of
        && modules[0].bytes.as_slice() == ENDLESS.as_slice()
        && instances.len() == 1
        && is_endless(&instances[0], id, of)
}

// Whether the host's roll is so.
fn is_roll(host: &Host, alloc: Global, id: InstId, of: ModuleId) -> Result<bool> {
    let roll = host.roll(alloc)?;
    Ok(lists_all(&roll, id, of))
}

// Two instances come, the first one goes, and the second one's call uses its fuel.
fn come_and_go(host: &mut Host, alloc: Global) -> Result<()> {
    let endless = host.load(alloc, &ENDLESS)?;
    let a = admit(host, alloc, endless, 2)?;
    let b = admit(host, alloc, endless, 3)?;
    let output = host.release(alloc, a)?;
    ensure!(output.len() == 0, "there is output");
    let call = host.invoke(alloc, b, "f", &[], 5)?;
    let (end, charges) = host.turn(b, 1000);
    ensure!(
        (call, end, charges) == (1, TurnEnd::Fuel, 5),
        "the call came to {end:?} in {charges} charges"
    );
    ensure!(is_roll(host, alloc, b, endless)?, "the roll lists others");
    Ok(())
}

/// Checks the roll of a module and an instance that has a call open, after one that was released.
pub fn enroll(alloc: Global) -> Result<()> {
    let mut host = host_of_many(alloc)?;
    come_and_go(&mut host, alloc)
}
