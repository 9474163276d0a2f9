//! How far a call is.

ghost use Rattle.std.specs.Prelude.{Some};
ghost use Rattle.wh_script_model.specs.Texts.{caller_text, status_text};
ghost use Rattle.wh_replies.specs.View.{caller_of, status_of, call_words};

use std::fmt;

/// A call, by the number of its `invoke`, or the start of an instance.
#[derive(Clone, Copy, Debug, PartialEq, Eq)]
pub enum Caller<'a> {
    /// The call of the `invoke` of this number, from 1.
    Call(u64),
    /// The start of the instance of this name.
    Start(&'a str),
}

impl fmt::Display for Caller<'_> {
    ghost output = { λ who. Some (caller_text (caller_of who)) };

    fn fmt<W: fmt::Write>(&self, f: &mut fmt::Formatter<W>) -> fmt::Result {
        match *self {
            Caller::Call(number) => write!(f, "call {number}"),
            Caller::Start(inst) => write!(f, "start {inst}"),
        }
    }
}

/// How far a call is, with the charges that it took.
#[derive(Clone, Copy, Debug, PartialEq, Eq)]
pub enum Status {
    /// It has returned this value.
    Value {
        /// The value, signed.
        value: i64,
        /// The charges.
        charges: u64,
    },
    /// It has returned no value.
    Done {
        /// The charges.
        charges: u64,
    },
    /// It has trapped.
    Trap {
        /// The number after the T.
        trap: u8,
        /// The charges.
        charges: u64,
    },
    /// It is blocked on fuel.
    Fuel {
        /// The charges.
        charges: u64,
    },
    /// It is blocked on a fault of the swap device.
    Frame {
        /// The number after the S.
        fault: u8,
        /// The charges.
        charges: u64,
    },
    /// It waits behind another.
    Queued,
    /// It was cancelled.
    Cancelled {
        /// The charges.
        charges: u64,
    },
    /// Its instance was released.
    Released {
        /// The charges.
        charges: u64,
    },
    /// The start of its instance has trapped or was cancelled.
    Dead,
    /// It wasn't taken.
    Refused {
        /// The number after the H.
        fault: u8,
    },
}

impl fmt::Display for Status {
    ghost output = { λ is. Some (status_text (status_of is)) };

    fn fmt<W: fmt::Write>(&self, f: &mut fmt::Formatter<W>) -> fmt::Result {
        match *self {
            Status::Value { value, charges } => write!(f, "done {value} charges {charges}"),
            Status::Done { charges } => write!(f, "done charges {charges}"),
            Status::Trap { trap, charges } => write!(f, "trap T{trap} charges {charges}"),
            Status::Fuel { charges } => write!(f, "fuel charges {charges}"),
            Status::Frame { fault, charges } => write!(f, "frame S{fault} charges {charges}"),
            Status::Queued => write!(f, "queued"),
            Status::Cancelled { charges } => write!(f, "cancelled charges {charges}"),
            Status::Released { charges } => write!(f, "released charges {charges}"),
            Status::Dead => write!(f, "dead"),
            Status::Refused { fault } => write!(f, "refused H{fault}"),
        }
    }
}

/// How far a call is, and which.
#[derive(Clone, Copy, Debug, PartialEq, Eq)]
pub struct Call<'a> {
    /// Which.
    pub who: Caller<'a>,
    /// How far.
    pub is: Status,
}

impl fmt::Display for Call<'_> {
    ghost output = { λ call. Some (call_words call) };

    fn fmt<W: fmt::Write>(&self, f: &mut fmt::Formatter<W>) -> fmt::Result {
        let who = self.who;
        let is = self.is;
        write!(f, "{who} {is}")
    }
}
