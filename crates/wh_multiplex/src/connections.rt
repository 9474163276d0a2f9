//! The connections that are open, and what a frame does to them.

ghost use Rattle.std.specs.Prelude.{◌≡◌, ◌⊎◌, ℕ, ◌<◌, ◌≤◌, ◌++◌, Bool, List, [], length, IfOk, IfErr, IsSome, Some, None, Err, OnOk, OnErr, slice_set};
ghost use Rattle.wh_multiplex.specs.declared.frame.StreamFrame.{StreamFrame};
ghost use Rattle.wh_multiplex.specs.StreamFrames.{stream_bytes};
ghost use Rattle.wh_multiplex.specs.Multiplexing.{open_at, AreCarried, Carried, ConnectionEnds, ConnectionOpens, ConnectionTakes};

use crate::fault::TakeFault;
use crate::frame::{StreamFrame, StreamKind};
use crate::queueing::queue_answer;
use crate::service::ConnectionService;
use std::alloc::{AllocError, Global};

/// What is sent on a connection for which there is no room.
pub const REFUSAL: &[u8] =
    b"HTTP/1.1 503 Service Unavailable\r\nRetry-After: 1\r\nConnection: close\r\nContent-Length: 0\r\n\r\n";

/// The connections that are open: their numbers are below a limit. `C` is what a service keeps of one.
#[derive(Drop)]
pub struct Connections<C> {
    pub(crate) slots: Vec<Option<C>>,
    pub(crate) answer: Vec<u8>,
}

impl<C: Drop> Connections<C> {
    /// Makes room for connections with numbers below `most`, none of which is open.
    ///
    /// # Errors
    /// Where the room is refused.
    pub fn new(alloc: Global, most: usize) -> Result<Connections<C>, AllocError>
        ensures most { IfOk result (λ connections. length connections.slots.items ≡ most) }
        ensures none { IfOk result (λ connections. (c : ℕ) → open_at connections.slots.items c ≡ None) }
    {
        let mut slots = Vec::new(alloc);
        for _number in 0..most {
            slots.push(None)?;
        }
        Ok(Connections {
            slots,
            answer: Vec::new(alloc),
        })
    }

    /// Takes a frame, and appends to `queue` the bytes of those that are to be sent: an opened connection is kept where its number
    /// is below the limit, and else answered by `REFUSAL` and closed; bytes are handed to their connection, and what it gives is
    /// sent on it in frames of `LONGEST_FRAME` bytes at most, and it is closed once it is done; one that ended is closed. What
    /// comes on a connection that isn't open changes nothing, nor does a stop: the caller looks for that.
    ///
    /// # Errors
    /// `OpenedTwice` where the connection is open: nothing has changed. `Memory` where there is no room for what is to be sent:
    /// nothing was queued, and the connection isn't open any more, though it may have been handed the bytes.
    pub fn take_frame<S: ConnectionService<C>>(
        &mut self,
        service: &mut S,
        frame: &StreamFrame,
        queue: &mut Vec<u8>,
    ) -> Result<(), TakeFault>
        ensures ok { OnOk result ((sent : List StreamFrame)
            × (queue.new.items ≡ queue.old.items ++ stream_bytes sent)
            × Carried S.opens S.takes S.handed S.given REFUSAL.now service.old self.old.slots.items frame.now sent
            service.new self.new.slots.items) }
        ensures twice { result ≡ Err TakeFault.OpenedTwice → (service.new ≡ service.old)
            × (self.new.slots.items ≡ self.old.slots.items) × IsSome (open_at self.old.slots.items frame.now.connection) }
        ensures queue { OnErr result (queue.new.items ≡ queue.old.items) }
        ensures slots { OnErr result ((self.new.slots.items ≡ self.old.slots.items)
            ⊎ (self.new.slots.items ≡ slice_set self.old.slots.items frame.now.connection None)) }
    {
        match frame.kind {
            StreamKind::Opened => match self.open(service, frame.connection, queue) {
                Ok(()) => Ok(()),
                Err(fault) => Err(fault),
            },
            StreamKind::Data => {
                match self.hand(service, frame.connection, frame.bytes.as_slice(), queue) {
                    Ok(()) => Ok(()),
                    Err(fault) => Err(fault),
                }
            }
            StreamKind::Ended => match self.end(frame.connection, queue) {
                Ok(()) => Ok(()),
                Err(fault) => Err(fault),
            },
            StreamKind::Stop => Ok(()),
        }
    }

    // Opens a connection, if there is room for it.
    fn open<S: ConnectionService<C>>(
        &mut self,
        service: &S,
        connection: u32,
        queue: &mut Vec<u8>,
    ) -> Result<(), TakeFault>
        ensures ok { OnOk result ((sent : List StreamFrame)
            × (queue.new.items ≡ queue.old.items ++ stream_bytes sent)
            × ConnectionOpens S.opens S.handed S.given REFUSAL.now service.now self.old.slots.items connection sent
            self.new.slots.items) }
        ensures err { OnErr result ((queue.new.items ≡ queue.old.items) × (self.new.slots.items ≡ self.old.slots.items)) }
        ensures twice { result ≡ Err TakeFault.OpenedTwice → IsSome (open_at self.old.slots.items connection) }
    {
        let index = connection as usize;
        if index >= self.slots.len() {
            return match queue_answer(queue, connection, REFUSAL, true) {
                Ok(()) => Ok(()),
                Err(_) => Err(TakeFault::Memory),
            };
        }
        if self.slots[index].is_some() {
            return Err(TakeFault::OpenedTwice);
        }
        self.slots[index] = Some(service.open());
        Ok(())
    }

    // Takes a connection out, if it is open.
    fn take_out(&mut self, connection: u32) -> Option<C>
        ensures value { result ≡ open_at self.old.slots.items connection }
        ensures slots { self.new.slots.items ≡ slice_set self.old.slots.items connection None }
    {
        let index = connection as usize;
        if index >= self.slots.len() {
            return None;
        }
        self.slots[index].take()
    }

    // Puts a connection in, if its number is below the limit.
    fn put_in(&mut self, connection: u32, kept: C)
        ensures { self.new.slots.items ≡ slice_set self.old.slots.items connection (Some kept) }
    {
        let index = connection as usize;
        if index < self.slots.len() {
            self.slots[index] = Some(kept);
        }
    }

    // Hands bytes to a connection, if it is open.
    fn hand<S: ConnectionService<C>>(
        &mut self,
        service: &mut S,
        connection: u32,
        bytes: &[u8],
        queue: &mut Vec<u8>,
    ) -> Result<(), TakeFault>
        ensures ok { OnOk result ((sent : List StreamFrame)
            × (queue.new.items ≡ queue.old.items ++ stream_bytes sent)
            × ConnectionTakes S.takes S.handed S.given service.old self.old.slots.items connection bytes.now sent
            service.new self.new.slots.items) }
        ensures err { IfErr result (λ fault. (fault ≡ TakeFault.Memory) × (queue.new.items ≡ queue.old.items)
            × (self.new.slots.items ≡ slice_set self.old.slots.items connection None)) }
    {
        let mut kept = match self.take_out(connection) {
            None => return Ok(()),
            Some(kept) => kept,
        };
        self.answer.clear();
        let is_done = service.take(&mut kept, bytes, &mut self.answer);
        match queue_answer(queue, connection, &self.answer, is_done) {
            Ok(()) => {}
            Err(_) => return Err(TakeFault::Memory),
        }
        if is_done {
            return Ok(());
        }
        self.put_in(connection, kept);
        Ok(())
    }

    // Closes a connection that has ended, if it is open.
    fn end(&mut self, connection: u32, queue: &mut Vec<u8>) -> Result<(), TakeFault>
        ensures ok { OnOk result ((sent : List StreamFrame)
            × (queue.new.items ≡ queue.old.items ++ stream_bytes sent)
            × ConnectionEnds self.old.slots.items connection sent self.new.slots.items) }
        ensures err { IfErr result (λ fault. (fault ≡ TakeFault.Memory) × (queue.new.items ≡ queue.old.items)
            × (self.new.slots.items ≡ slice_set self.old.slots.items connection None)) }
    {
        match self.take_out(connection) {
            None => Ok(()),
            Some(_) => match queue_answer(queue, connection, &[], true) {
                Ok(()) => Ok(()),
                Err(_) => Err(TakeFault::Memory),
            },
        }
    }
}
