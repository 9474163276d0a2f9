//! The texts that `wh_replies` writes, and values with their signs.

use crate::tables::agree;
use anyhow::{Result, ensure};
use std::alloc::{AllocError, Global};
use wh_host::{HostUsage, InstanceReport, Report};
use wh_model::ValType;
use wh_replies::{
    Call, Caller, FaultPlace, ModuleRefusal, Reply, Status, signed_value, write_released,
    write_reply, write_report,
};
use wh_space_model::Tax;

const REPLIES: [Reply<'static>; 7] = [
    Reply::Error { cause: 1, line: 4 },
    Reply::ModuleOk { name: "m" },
    Reply::ModuleRefused {
        name: "m",
        why: ModuleRefusal::Invalid {
            kind: 1,
            place: FaultPlace::Instr { func: 0, instr: 4 },
        },
    },
    Reply::AdmitRefused {
        inst: "a",
        fault: 4,
    },
    Reply::RefuelRefused {
        inst: "a",
        fault: 8,
    },
    Reply::Call {
        call: Call {
            who: Caller::Call(9),
            is: Status::Value {
                value: -1,
                charges: 2,
            },
        },
    },
    Reply::Call {
        call: Call {
            who: Caller::Start("b"),
            is: Status::Trap {
                trap: 1,
                charges: 1,
            },
        },
    },
];

const REPLIES_TEXT: &str =
    "error C1 line 4\nmodule m ok\nmodule m refused V1 func 0 instr 4\nadmit a refused A4\nrefuel a refused H8\ncall 9 done -1 charges 2\nstart b trap T1 charges 1\n";

const OUTPUTS_TEXT: &str = "release a ok 05000000000000fa\nrelease b ok -\n";

const ROWS: [InstanceReport; 3] = [
    InstanceReport {
        number: 1,
        place: 0,
        shares: 100,
        min: 2,
        max: 16,
        charged: 1,
        active: 0,
        swapped: 0,
    },
    InstanceReport {
        number: 1,
        place: 0,
        shares: 100,
        min: 2,
        max: 16,
        charged: 0,
        active: 0,
        swapped: 0,
    },
    InstanceReport {
        number: 2,
        place: 1,
        shares: 1000000,
        min: 2,
        max: 65536,
        charged: 5,
        active: 2,
        swapped: 3,
    },
];

const REPORT_TEXT: &str =
    "# frames 1024 used 1 free 1023\n# slots 4096 used 0 free 4096\n# shared frames 1 sharers 3\n#     1     100     2    16     1     0     0 100/4\n#     1     100     2    16     0     0     0 -\n#     2 1000000     2 65536     5     2     3 1000000/14\n";

const TAXED_TEXT: &str =
    "# frames 8 used 8 free 0\n# slots 4 used 3 free 1\n# shared frames 0 sharers 0\n#     2 1000000     2 65536     5     2     3 1000000/3002\n";

const VALUES: [(ValType, u64, Option<i64>); 6] = [
    (ValType::I32, 0xFFFF_FFFF, Some(-1)),
    (ValType::I32, 0x7FFF_FFFF, Some(2147483647)),
    (ValType::I64, 0xFFFF_FFFF_FFFF_FFFF, Some(-1)),
    (
        ValType::I64,
        0x8000_0000_0000_0000,
        Some(-9223372036854775808),
    ),
    (ValType::I64, 7, Some(7)),
    (ValType::I32, 0x1_0000_0000, None),
];

fn replies(alloc: Global) -> Result<String, AllocError> {
    let mut text = String::new(alloc);
    for reply in &REPLIES {
        write_reply(&mut text, *reply)?;
    }
    Ok(text)
}

fn outputs(alloc: Global) -> Result<String, AllocError> {
    let mut text = String::new(alloc);
    write_released(alloc, &mut text, "a", &[5, 0, 0, 0, 0, 0, 0, 0xFA])?;
    write_released(alloc, &mut text, "b", &[])?;
    Ok(text)
}

fn report(alloc: Global) -> Result<String, AllocError> {
    let mut text = String::new(alloc);
    let usage = HostUsage {
        frames: 1024,
        used_frames: 1,
        slots: 4096,
        used_slots: 0,
        shared_frames: 1,
        sharers: 3,
        tax: Tax { num: 3, den: 4 },
        instances: 3,
    };
    let instances = Vec::from_slice(alloc, &ROWS)?;
    let report = Report { usage, instances };
    write_report(&mut text, &report)?;
    Ok(text)
}

fn taxed_report(alloc: Global) -> Result<String, AllocError> {
    let mut text = String::new(alloc);
    let usage = HostUsage {
        frames: 8,
        used_frames: 8,
        slots: 4,
        used_slots: 3,
        shared_frames: 0,
        sharers: 0,
        tax: Tax {
            num: 999,
            den: 1000,
        },
        instances: 1,
    };
    let instances = Vec::from_slice(alloc, &ROWS[2..])?;
    let report = Report { usage, instances };
    write_report(&mut text, &report)?;
    Ok(text)
}

fn wrong_value() -> Option<usize> {
    for (row, (of, word, value)) in VALUES.iter().enumerate() {
        if signed_value(*of, *word) != *value {
            return Some(row);
        }
    }
    None
}

/// Compares each text and each value: how many lines and values they are.
pub fn check(alloc: Global) -> Result<usize> {
    let text = replies(alloc)?;
    ensure!(text.as_str() == REPLIES_TEXT, "replies: {text}");
    let text = outputs(alloc)?;
    ensure!(text.as_str() == OUTPUTS_TEXT, "outputs: {text}");
    let text = report(alloc)?;
    ensure!(text.as_str() == REPORT_TEXT, "report: {text}");
    let text = taxed_report(alloc)?;
    ensure!(text.as_str() == TAXED_TEXT, "taxed report: {text}");
    agree("values", wrong_value())?;
    Ok(REPLIES.len() + 2 + 6 + 4 + VALUES.len())
}
