//! One call of a module, from its bytes to its outcome, which was worked out by hand.

use anyhow::{Result, bail};
use std::alloc::Global;
use wh_alone::{CallResult, Outcome, call_module};
use wh_initial::Parameters;
use wh_model::Trap;

/// A module that imports the host's `base`, has 42 at 4 in its memory by a data segment, and whose start function puts that
/// into a global, in 2 charges. Function 1 takes an address and adds the number there, the global and `base`, in 6 charges,
/// the second of which is the load.
const MODULE: &str =
    "0061736d0100000001090260000060017f017f020e0104686f73740462617365037f00030302000105030100010606017f0141000b0801000a19020900410428020024010b0d00200028020023016a23006a0b0b0a010041040b042a000000";

/// A call, and what it is to come to.
struct Case {
    func: u32,
    address: u64,
    fuel: u64,
    wanted: CallResult,
}

/// All the ways in which a call comes to something.
const CASES: [Case; 5] = [
    Case {
        func: 1,
        address: 4,
        fuel: 6,
        wanted: CallResult::Call {
            started: 2,
            outcome: Outcome::Returned(Some(184)),
            charges: 6,
        },
    },
    Case {
        func: 1,
        address: 65533,
        fuel: 6,
        wanted: CallResult::Call {
            started: 2,
            outcome: Outcome::Trapped(Trap::OutOfBounds),
            charges: 2,
        },
    },
    Case {
        func: 1,
        address: 4,
        fuel: 5,
        wanted: CallResult::Call {
            started: 2,
            outcome: Outcome::OutOfFuel,
            charges: 5,
        },
    },
    Case {
        func: 2,
        address: 4,
        fuel: 6,
        wanted: CallResult::NoCall(2),
    },
    Case {
        func: 1,
        address: 4,
        fuel: 1,
        wanted: CallResult::Start(Outcome::OutOfFuel, 1),
    },
];

/// The outcome of the call where `base` is 100.
fn came_to(alloc: Global, bytes: &[u8], case: &Case) -> Result<CallResult> {
    let parameters = Parameters {
        base: 100,
        salt: 0,
        inputs: Vec::new(alloc),
        page_limit: 1,
    };
    match call_module(
        alloc,
        bytes,
        parameters,
        case.func,
        &[case.address],
        case.fuel,
    ) {
        Ok((_, alone)) => Ok(alone),
        Err(error) => bail!("{error}"),
    }
}

/// Makes each call and prints how many come to what they are to; an error where one doesn't.
pub fn try_calls(rt: &(impl Print + AllocGlobal)) -> Result<()> {
    let bytes = hex::decode(rt.alloc(), MODULE)?;
    let mut agreed = 0usize;
    for case in &CASES {
        let found = came_to(rt.alloc(), &bytes, case)?;
        if found != case.wanted {
            bail!("one call: wanted {:?}; came {found:?}", case.wanted);
        }
        agreed = agreed.saturating_add(1);
    }
    println!(rt; "one call of a module: {agreed} agree")?;
    Ok(())
}
