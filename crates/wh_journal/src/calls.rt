// The calls of a journal.

ghost use Rattle.std.specs.Prelude.{◌≡◌, ◌+◌, ◌<◌, ◌^◌, IfOk};
ghost use Rattle.wh_journal.specs.Calls.{with_progress, with_more_fuel, with_end};
ghost use Rattle.wh_journal.specs.declared.calls.CallEnd.TheVariants.{Open};

use std::alloc::{AllocError, Global};
use std::marker::Model;
use wh_model::Trap;

/// How a call has ended, if it has.
#[derive(Clone, Copy, Debug, PartialEq, Eq)]
pub enum CallEnd {
    /// It hasn't.
    Open,
    /// It has returned, with a result where its type has one; an i32 in the low 32 bits.
    Returned(Option<u64>),
    /// It has trapped.
    Trapped(Trap),
    /// Its owner has cancelled it.
    Cancelled,
    /// It was queued after a start that trapped or was cancelled, and did nothing.
    Dead,
}

/// A call of an instance: what it was given, how far it has come, and how it has ended, if it has.
#[derive(Drop)]
pub struct JournalCall {
    func: Option<u32>,
    given: Vec<i128>,
    words: Vec<u64>,
    fuel: u64,
    pieces: u64,
    charges: u64,
    end: CallEnd,
}

impl Model for JournalCall {
    ghost use Rattle.wh_journal.specs.Calls.{JournalCallState, stored_call};

    ghost Value = { JournalCallState };

    ghost coded = { stored_call };

    ghost view = { λ c. record {
      func = c.func;
      given = c.given.items;
      words = c.words.items;
      fuel = c.fuel;
      pieces = c.pieces;
      charges = c.charges;
      end = c.end;
    } };
}

impl JournalCall {
    /// Creates an open call of this function with these arguments, as they were given and as words, and this fuel in
    /// charges. It has written no piece and taken no charge. Only a start may have no function.
    pub fn new(func: Option<u32>, given: Vec<i128>, words: Vec<u64>, fuel: u64) -> JournalCall
        ensures { result ≡ record {
          func = func;
          given = given.items;
          words = words.items;
          fuel = fuel;
          pieces = 0;
          charges = 0;
          end = Open;
        } }
    {
        JournalCall {
            func,
            given,
            words,
            fuel,
            pieces: 0,
            charges: 0,
            end: CallEnd::Open,
        }
    }

    /// Returns the index of its function, if it has one.
    pub fn func(&self) -> Option<u32>
        ensures { result ≡ self.now.func }
    {
        self.func
    }

    /// Returns its arguments in order, as its owner gave them.
    pub fn given(&self) -> &[i128]
        ensures { result.now ≡ self.now.given }
    {
        &self.given
    }

    /// Returns its arguments in order, as words of the machine.
    pub fn words(&self) -> &[u64]
        ensures { result.now ≡ self.now.words }
    {
        &self.words
    }

    /// Returns the fuel that it was given in all, in charges.
    pub fn fuel(&self) -> u64
        ensures { result ≡ self.now.fuel }
    {
        self.fuel
    }

    /// Returns the number of pieces of data segments that it has written.
    pub fn pieces(&self) -> u64
        ensures { result ≡ self.now.pieces }
    {
        self.pieces
    }

    /// Returns the number of charges that it has taken.
    pub fn charges(&self) -> u64
        ensures { result ≡ self.now.charges }
    {
        self.charges
    }

    /// Returns how it has ended, or that it is open.
    pub fn end(&self) -> CallEnd
        ensures { result ≡ self.now.end }
    {
        self.end
    }

    /// Copies the call.
    ///
    /// # Errors
    /// `AllocError` if an allocation fails.
    pub fn copy(&self, alloc: Global) -> Result<JournalCall, AllocError>
        ensures { IfOk result (λ copy. copy ≡ self.now) }
    {
        let given = Vec::from_slice(alloc, &self.given)?;
        let words = Vec::from_slice(alloc, &self.words)?;
        Ok(JournalCall {
            func: self.func,
            given,
            words,
            fuel: self.fuel,
            pieces: self.pieces,
            charges: self.charges,
            end: self.end,
        })
    }

    /// Adds to the pieces that it has written, and to the charges that it has taken.
    pub(crate) fn go_further(&mut self, pieces: u64, charges: u64)
        requires pieces { self.old.pieces + pieces < 2 ^ 64 }
        requires charges { self.old.charges + charges < 2 ^ 64 }
        ensures { self.new ≡ with_progress self.old pieces charges }
    {
        self.pieces += pieces;
        self.charges += charges;
    }

    /// Adds fuel to what it was given, up to 2^64 - 1.
    pub(crate) fn refuel(&mut self, fuel: u64)
        ensures { self.new ≡ with_more_fuel self.old fuel }
    {
        self.fuel = self.fuel.saturating_add(fuel);
    }

    /// It has ended so.
    pub(crate) fn end_as(&mut self, end: CallEnd)
        ensures { self.new ≡ with_end self.old end }
    {
        self.end = end;
    }
}
