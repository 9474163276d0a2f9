// What instances see.

use crate::rig::Rig;
use anyhow::{Result, ensure};
use std::alloc::Global;
use wh_host::CallStatus;
use wh_space_model::InstId;

/// Where the pages of an instance begin.
pub const PAGES: [u32; 16] = [
    0, 4096, 8192, 12288, 16384, 20480, 24576, 28672, 32768, 36864, 40960, 45056, 49152, 53248,
    57344, 61440,
];

/// Returns the first of these pages that an instance has put out with other bytes than a memory has; 65536 if there are
/// further bytes, and `None` if there is no difference.
pub fn difference(pages: &[u32], seen: &[u8], memory: &[u8]) -> Option<u32> {
    let mut rest = seen;
    for at in pages {
        let page = rest.get(..4096);
        let wanted = memory
            .get(*at as usize..)
            .and_then(|bytes| bytes.get(..4096));
        if page.is_none() || page != wanted {
            return Some(*at);
        }
        rest = rest.get(4096..).unwrap_or(&[]);
    }
    if rest.is_empty() { None } else { Some(65536) }
}

impl Rig {
    // Runs a call that puts out bytes to its end: by a turn alone if its pages are resident or zero, whatever tickets
    // are out. Else they come back, and its pages are fetched.
    fn put_out(&mut self, alloc: Global, id: InstId, call: u32) -> Result<()> {
        let done = Some(CallStatus::Returned {
            value: None,
            charges: 3,
        });
        let _ = self.turn(id, 3);
        if self.status(id, call) == done {
            return Ok(());
        }
        let _ = self.evict_commit(false);
        let _ = self.fetch_commit(false);
        let fault = self.run_out(alloc, id)?;
        ensure!(fault.is_none(), "a device call failed");
        let status = self.status(id, call);
        ensure!(status == done, "bytes came to {status:?}");
        Ok(())
    }

    /// Returns the bytes that an instance sees in these pages of its memory. It puts them out, and is released.
    pub fn emitted(&mut self, alloc: Global, id: InstId, pages: &[u32]) -> Result<Vec<u8>> {
        for at in pages {
            let call = self.invoke(alloc, id, "emit", &[i128::from(*at), 4096], 3)?;
            self.put_out(alloc, id, call)?;
        }
        Ok(self.release(alloc, id)?)
    }
}
