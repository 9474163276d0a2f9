// What an owner sees of an instance between two of its turns, beside the same on a flat memory.

use crate::pair::Pair;
use crate::rig::Rig;
use anyhow::{Context, Result, ensure};
use std::alloc::Global;
use wh_host::ReadError;
use wh_space_model::InstId;

// How many bytes are read at once.
const READ: usize = 16;

impl Rig {
    // Compares what the whole report says of an instance with what is said of it alone, and of the whole.
    fn compare_usage(&self, alloc: Global, id: InstId) -> Result<()> {
        let report = self.host.report(alloc)?;
        ensure!(
            report.usage == self.host.usage(),
            "the whole is used otherwise"
        );
        ensure!(
            report.usage.instances == report.instances.len(),
            "some aren't there"
        );
        let alone = self.host.usage_of(id)?;
        let row = report.instances.iter().find(|row| row.number == id.number);
        ensure!(row == Some(&alone), "other numbers are told");
        let mut charged = 0u32;
        for row in report.instances.iter() {
            charged = charged.saturating_add(row.charged);
        }
        ensure!(
            charged <= report.usage.used_frames,
            "a frame is charged twice"
        );
        Ok(())
    }
}

impl Pair {
    // Reads bytes of both from this address on.
    fn compare_bytes(&self, rig: &mut Rig, alloc: Global, at: u32) -> Result<()> {
        let mut seen = [0xEE; READ];
        let from = at as usize;
        let answer = rig.read(alloc, self.id, u64::from(at), &mut seen, 0)?;
        match self
            .flat
            .bytes()
            .get(from..)
            .and_then(|bytes| bytes.get(..READ))
        {
            Some(wanted) => {
                ensure!(answer == Ok(()), "bytes aren't read: {answer:?}");
                ensure!(seen.as_slice() == wanted, "other bytes are read at {at}");
            }
            None => ensure!(
                answer == Err(ReadError::Outside),
                "there are more: {answer:?}"
            ),
        }
        Ok(())
    }

    /// Compares what an owner sees of the instance with the flat one: bytes from this address on, how many calls have ended,
    /// and that it has put nothing out.
    pub fn look(&self, rig: &mut Rig, alloc: Global, at: u32) -> Result<()> {
        self.compare_bytes(rig, alloc, at)?;
        let ended = rig.host.ended_calls(self.id).context("it isn't there")?;
        ensure!(
            ended == self.flat.present_at()? as usize,
            "{ended} calls have ended"
        );
        ensure!(rig.host.output_of(self.id)?.is_empty(), "it has put out");
        rig.compare_usage(alloc, self.id)
    }
}
