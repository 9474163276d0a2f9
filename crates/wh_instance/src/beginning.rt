//! What an instance begins with.

ghost use Rattle.std.specs.Prelude.{◌≡◌, ◌≤◌, cond, length, [], IfOk};
ghost use Rattle.wh_model.specs.Format.Limits.{most_segments};
ghost use Rattle.wh_instance.specs.declared.stages.CallStage.TheVariants.{Writing, Faced};
ghost use Rattle.wh_instance.specs.Beginning.{has_nothing, journal_at_first, BeginsTenant};

use crate::host_instance::HostInstance;
use crate::stages::CallStage;
use crate::writing::Cursor;
use std::alloc::{AllocError, Global};
use wh_imports::Linked;
use wh_initial::Instantiated;
use wh_journal::{CallEnd, Journal, JournalCall};
use wh_machine::{Machine, Store};

// Where a start is first.
fn first_progress(has_pieces: bool) -> CallStage
    ensures { result ≡ cond has_pieces Writing Faced }
{
    if has_pieces {
        CallStage::Writing
    } else {
        CallStage::Faced
    }
}

// Whether a start has nothing to do.
fn is_over(has_pieces: bool, start: Option<u32>) -> bool
    ensures { result ≡ has_nothing has_pieces start }
{
    match start {
        Some(_) => false,
        None => !has_pieces,
    }
}

// A journal that has a start alone, which is open, or has ended already.
fn first_journal(
    alloc: Global,
    start: Option<u32>,
    fuel: u64,
    over: bool,
) -> Result<Journal, AllocError>
    ensures { IfOk result (λ j. j ≡ journal_at_first start fuel over) }
{
    let mut journal = Journal::new(alloc);
    let call = JournalCall::new(start, Vec::new(alloc), Vec::new(alloc), fuel);
    journal.push(call)?;
    if !over {
        return Ok(journal);
    }
    journal.end_present(CallEnd::Returned(None));
    Ok(journal)
}

impl HostInstance {
    /// Creates an instance of a linked module with this initial state and machine, and `fuel` charges for its start.
    /// The start has data segments to write, or calls the start function; if there is neither, it has ended.
    ///
    /// # Errors
    /// `AllocError` if the allocation for the journal fails.
    pub fn new(
        alloc: Global,
        linked: &Linked,
        begun: Instantiated,
        machine: Machine,
        fuel: u64,
    ) -> Result<HostInstance, AllocError>
        requires few { length linked.now.valid.decoded.segments.items ≤ most_segments }
        ensures { IfOk result (BeginsTenant linked.now begun fuel) }
    {
        let module = linked.module();
        let cursor = Cursor::first();
        let has_pieces = cursor.has_pieces(module.segments.as_slice(), &begun.places);
        let over = is_over(has_pieces, module.start);
        let journal = first_journal(alloc, module.start, fuel, over)?;
        let progress = first_progress(has_pieces);
        Ok(HostInstance {
            store: begun.store,
            machine,
            places: begun.places,
            cursor,
            progress,
            journal,
            waiting_for: None,
            dead: false,
        })
    }

    /// Creates an instance of no module and without calls, to put in the place of one that is taken out.
    ///
    /// # Errors
    /// `AllocError` if an allocation fails.
    pub fn spare(alloc: Global) -> Result<HostInstance, AllocError>
        ensures { IfOk result (λ x. x.journal ≡ record { ended = []; open_calls = [] }) }
    {
        let store = Store {
            globals: Vec::new(alloc),
            table: Vec::new(alloc),
            inputs: Vec::new(alloc),
            output: Vec::new(alloc),
        };
        Ok(HostInstance {
            store,
            machine: Machine::new(alloc)?,
            places: Vec::new(alloc),
            cursor: Cursor::first(),
            progress: CallStage::Faced,
            journal: Journal::new(alloc),
            waiting_for: None,
            dead: false,
        })
    }
}
