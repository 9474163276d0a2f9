//! What a host tells.

ghost use Rattle.std.specs.Prelude.{◌≡◌};
ghost use Rattle.wolqedir.specs.ExportContracts.{ServesHandle, ServesWithRoom, ExportTellsCounts, ExportTellsInstance, ExportTellsInstances, ExportTellsReport, ExportTellsStatus, ExportTellsTaken};
ghost use Rattle.wolqedir.specs.Shapes.{id_of};
ghost use Rattle.wolqedir.specs.CodeTexts.{TellsText};
ghost use Rattle.wolqedir.specs.Transcribed.{ExportTellsTranscript};

use crate::codes::{DONE, MEMORY, NONE, UNKNOWN, of_host};
use crate::handle::Handle;
use crate::rooms::lay;
use crate::shapes::{
    RawCounts, RawInstance, RawInstanceReport, RawReport, RawStatus, named, raw_counts, raw_report,
    raw_row, raw_rows, shown,
};
use crate::texts::sentence;
use crate::transcripts::words_of;
use std::alloc::Global;

/// Gives the status of the call at this place of an instance, where its start is at 0.
///
/// It answers NONE, or UNKNOWN where there is no such instance or no such call.
#[unsafe(no_mangle)]
pub extern "C" fn wq_status_of(
    alloc: Global,
    handle: &mut Handle,
    instance: &RawInstance,
    call: u32,
    status: &mut RawStatus,
) -> u32
    ensures { ServesHandle handle.old.slot.held
        (ExportTellsStatus (id_of instance.now) call status.old result status.new) result
        handle.new.slot.held (status.new ≡ status.old) }
{
    let Some(hand) = handle.take(alloc) else {
        return NONE;
    };
    let told = hand.status(named(instance), call);
    handle.put(hand);
    match told {
        Some((far, charges)) => {
            *status = shown(far, charges);
            DONE
        }
        None => UNKNOWN,
    }
}

/// Copies as many bytes as there is room for of what the instance had put out that was released last, and tells how many bytes
/// that is; none before the first release.
///
/// It answers NONE or 0.
#[unsafe(no_mangle)]
pub extern "C" fn wq_taken(
    alloc: Global,
    handle: &mut Handle,
    room: &mut [u8],
    len: &mut usize,
) -> u32
    ensures { ServesHandle handle.old.slot.held (ExportTellsTaken room.old room.new len.new result) result
        handle.new.slot.held ((room.new ≡ room.old) × (len.new ≡ len.old)) }
{
    let Some(hand) = handle.take(alloc) else {
        return NONE;
    };
    lay(hand.output(), room, len);
    handle.put(hand);
    DONE
}

/// Tells how the frames, slots and pages of the host are used, and how many instances it has.
///
/// It answers NONE or 0.
#[unsafe(no_mangle)]
pub extern "C" fn wq_report_of(alloc: Global, handle: &mut Handle, report: &mut RawReport) -> u32
    ensures { ServesHandle handle.old.slot.held (ExportTellsReport report.new result)
        result handle.new.slot.held (report.new ≡ report.old) }
{
    let Some(hand) = handle.take(alloc) else {
        return NONE;
    };
    *report = raw_report(hand.usage());
    handle.put(hand);
    DONE
}

/// Tells what the host has counted since it was created.
///
/// It answers NONE or 0.
#[unsafe(no_mangle)]
pub extern "C" fn wq_counts_of(alloc: Global, handle: &mut Handle, counts: &mut RawCounts) -> u32
    ensures { ServesHandle handle.old.slot.held (ExportTellsCounts counts.new result)
        result handle.new.slot.held (counts.new ≡ counts.old) }
{
    let Some(hand) = handle.take(alloc) else {
        return NONE;
    };
    *counts = raw_counts(hand.counts());
    handle.put(hand);
    DONE
}

/// Tells what an instance has of the memory of the host.
///
/// It answers NONE or H1.
#[unsafe(no_mangle)]
pub extern "C" fn wq_instance_report_of(
    alloc: Global,
    handle: &mut Handle,
    instance: &RawInstance,
    row: &mut RawInstanceReport,
) -> u32
    ensures { ServesHandle handle.old.slot.held
        (ExportTellsInstance (id_of instance.now) row.old row.new result) result
        handle.new.slot.held (row.new ≡ row.old) }
{
    let Some(hand) = handle.take(alloc) else {
        return NONE;
    };
    let told = hand.usage_of(named(instance));
    handle.put(hand);
    match told {
        Ok(told) => {
            *row = raw_row(told);
            DONE
        }
        Err(error) => of_host(error),
    }
}

/// Copies as many rows as there is room for of what the instances of the host have of its memory, by number, and tells how many
/// instances there are.
///
/// It answers NONE, H7 where there is no room for the report, or MEMORY where there is none for the rows.
#[unsafe(no_mangle)]
pub extern "C" fn wq_instance_reports(
    alloc: Global,
    handle: &mut Handle,
    room: &mut [RawInstanceReport],
    len: &mut usize,
) -> u32
    ensures { ServesWithRoom handle.old.slot.held
        (ExportTellsInstances room.old room.new len.old len.new result) result
        handle.new.slot.held ((room.new ≡ room.old) × (len.new ≡ len.old)) }
{
    let Some(hand) = handle.take(alloc) else {
        return NONE;
    };
    let told = hand.report(alloc);
    handle.put(hand);
    match told {
        Ok(told) => match raw_rows(alloc, &told.instances) {
            Ok(rows) => {
                lay(&rows, room, len);
                DONE
            }
            Err(_) => MEMORY,
        },
        Err(error) => of_host(error),
    }
}

/// Copies as many words as there is room for of the transcript of an instance, and tells how many words it has: for each of its
/// calls in the order of their coming, the first of which is the start, the index of its function or 2^64 - 1 for none; its
/// fuel in all; the pieces of data segments that it wrote; its charges; the kind of its status, 0 where it hasn't ended; 1 where
/// it has a result, else 0; the result, or the number of its trap, else 0; how many arguments it has; and these.
///
/// It answers NONE, a code of the family H, or MEMORY where there is no room for the words.
#[unsafe(no_mangle)]
pub extern "C" fn wq_transcript_of(
    alloc: Global,
    handle: &mut Handle,
    instance: &RawInstance,
    room: &mut [u64],
    len: &mut usize,
) -> u32
    ensures { ServesWithRoom handle.old.slot.held
        (ExportTellsTranscript (id_of instance.now) room.old room.new len.old len.new result) result
        handle.new.slot.held ((room.new ≡ room.old) × (len.new ≡ len.old)) }
{
    let Some(hand) = handle.take(alloc) else {
        return NONE;
    };
    let transcript = hand.transcript(alloc, named(instance));
    handle.put(hand);
    match transcript {
        Ok(transcript) => match words_of(alloc, transcript.calls()) {
            Ok(words) => {
                lay(&words, room, len);
                DONE
            }
            Err(_) => MEMORY,
        },
        Err(error) => of_host(error),
    }
}

/// Copies as many bytes as there is room for of a sentence for a code, and tells how many bytes it has.
///
/// It answers UNKNOWN where there is no such code.
#[unsafe(no_mangle)]
pub extern "C" fn wq_code_text(code: u32, room: &mut [u8], len: &mut usize) -> u32
    ensures { TellsText code room.old room.new len.old len.new result }
{
    match sentence(code) {
        Some(text) => {
            lay(text.as_bytes(), room, len);
            DONE
        }
        None => UNKNOWN,
    }
}
