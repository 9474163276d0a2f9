// The same calls on another host, in the calling thread, with frames for all pages.

use crate::guests::{BYTES, admission, invocation, loading};
use anyhow::{Result, ensure};
use std::alloc::Global;
use wh_host::{CallStatus, Host};
use wh_space_model::{InstId, Tax};

// A twin of an instance, and the calls that were asked of it.
#[derive(Drop)]
struct Twin {
    id: InstId,
    calls: Vec<u32>,
}

/// Instances of the module of bytes.
#[derive(Drop)]
pub struct Twins {
    alloc: Global,
    host: Host,
    twins: Vec<Twin>,
}

impl Twins {
    /// Creates so many.
    pub fn new(alloc: Global, many: u32) -> Result<Twins> {
        let mut host = Host::new(alloc, 128, 64, Tax { num: 0, den: 1 })?;
        let bytes = host.load(alloc, &BYTES)?;
        let mut twins = Vec::new(alloc);
        for _ in 0..many {
            let admit = admission(alloc, bytes);
            let id = host.admit(alloc, admit.of, admit.params)?;
            let calls = Vec::new(alloc);
            twins.push(Twin { id, calls })?;
        }
        Ok(Twins { alloc, host, twins })
    }

    /// Asks a twin for a load or a store, which is this call of its instance, and runs it.
    pub fn ask(
        &mut self,
        at: usize,
        is_load: bool,
        place: u32,
        byte: u32,
        call: u32,
    ) -> Result<()> {
        let Some(twin) = self.twins.get_mut(at) else {
            return Ok(());
        };
        let (place, byte) = (i128::from(place), i128::from(byte));
        let mine = if is_load {
            self.host
                .invoke(self.alloc, twin.id, "l", &[place], u64::MAX)?
        } else {
            self.host
                .invoke(self.alloc, twin.id, "s", &[place, byte], u64::MAX)?
        };
        ensure!(mine == call, "a call has another place");
        twin.calls.push(call)?;
        for _ in 0..4 {
            let _ = self.host.turn(twin.id, 1000);
        }
        Ok(())
    }

    /// Returns the calls that were asked of a twin.
    pub fn calls(&self, at: usize) -> &[u32] {
        match self.twins.get(at) {
            Some(twin) => &twin.calls,
            None => &[],
        }
    }

    /// Returns how a call of a twin ended.
    pub fn end(&self, at: usize, call: u32) -> Option<CallStatus> {
        let twin = self.twins.get(at)?;
        self.host.call_status(twin.id, call)
    }
}
