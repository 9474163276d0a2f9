//! The hand.

ghost use Rattle.std.specs.Prelude.{◌≡◌, [], IfOk};
ghost use Rattle.wh_host.specs.HostCounting.{no_counts};
ghost use Rattle.wh_host.specs.Hosting.{IsNewHost};
ghost use Rattle.wh_hand.specs.HandStates.{IsSoundByEvents};

use crate::offer_pace::OfferPace;
use std::alloc::{AllocError, Global};
use std::collections::VecDeque;
use std::marker::Model;
use wh_admit::MOST_INSTANCES;
use wh_host::Host;
use wh_reclaim::Buf;
use wh_space_model::{InstId, Tax};
use wh_swap::MemSwap;

/// A single-threaded host, with all that it needs: a swap device in memory, room for a page, and the queue of instances
/// that can make progress. Contracts see the host, and the output of the instance that was released last.
///
/// Of each it is known that its host was reached by events alone, since its device is in memory and reads right.
pub struct Hand {
    pub(crate) host: Host,
    pub(crate) device: MemSwap,
    // Room for the bytes of a page that moves.
    pub(crate) page: Buf,
    // Who can go on, each once, in the order of their turns. There is room for all instances of a host.
    pub(crate) line: VecDeque<InstId>,
    pub(crate) pace: OfferPace,
    // What the instance had put out that was released last.
    pub(crate) output: Vec<u8>,
}

impl Drop for Hand {
    fn drop(self) {
        let Hand {
            host: _,
            device: _,
            page: _,
            line: _,
            pace: _,
            output: _,
        } = self;
    }
}

impl Model for Hand {
    ghost use Rattle.std.specs.VecDeque.{deque_capacity};
    ghost use Rattle.wh_swap.specs.MemorySwaps.{memory_held};
    ghost use Rattle.wh_hand.specs.HandStates.{HandState, IsInOneHand};

    ghost Value = { HandState };

    ghost use Rattle.wh_hand.specs.Stored.{stored_hand};

    ghost coded = { stored_hand };

    ghost view = { λ a. record { host = a.host; output = a.output.items } };

    ghost invariant = { λ a. IsInOneHand a.host (memory_held a.device) a.line.items
        (deque_capacity a.line) };
}

impl Hand {
    /// Creates a host with `frames` frames of 4096 bytes and `slots` swap slots in memory, without modules and
    /// instances. Reserves the room for all frames.
    ///
    /// # Errors
    /// `AllocError` if an allocation fails.
    pub fn new(alloc: Global, frames: u32, slots: u32, tax: Tax) -> Result<Hand, AllocError>
        ensures host { IfOk result (λ hand. IsNewHost hand.host frames slots tax) }
        ensures output { IfOk result (λ hand. hand.output ≡ []) }
        ensures counts { IfOk result (λ hand. hand.host.counts ≡ no_counts) }
    {
        let Ok(host) = Host::new(alloc, frames, slots, tax) else {
            return Err(AllocError);
        };
        let device = MemSwap::new(alloc, slots)?;
        let Ok(page) = Box::new(alloc, [0; 4096]) else {
            return Err(AllocError);
        };
        let line = VecDeque::with_capacity(alloc, MOST_INSTANCES)?;
        Ok(Hand {
            host,
            device,
            page,
            line,
            pace: OfferPace::new(),
            output: Vec::new(alloc),
        })
    }

    /// States what always holds: the host was reached by events alone, and no page of it is on its way to swap or back.
    /// So the laws of all runs hold of each call of each instance. Does nothing when run.
    #[inline(always)]
    pub fn invariant(&self)
        ensures { IsSoundByEvents self.now.host }
    {
        let _ = &self.host;
    }

    /// Returns the output of the instance that was released last; nothing before the first release.
    pub fn output(&self) -> &[u8]
        ensures { result.now ≡ self.now.output }
    {
        self.output.as_slice()
    }
}
