// The bytes of a page, to be hashed while the memory goes on.

ghost use Rattle.std.specs.Prelude.{◌≡◌, ℕ, IfSome, IfNone};
ghost use Rattle.wh_space_model.specs.Parts.{frame_bytes};
ghost use Rattle.wh_scan.specs.Sampling.{HasNoSample, IsSampledOn};

use wh_space::Memory;

/// The bytes that a page had when it was looked at.
#[derive(Clone, Copy, Debug)]
pub struct Sample {
    /// The 4096 bytes.
    pub bytes: [u8; 4096],
}

/// Copies the bytes of a page of the instance at this place. Returns `None` unless the page has a frame of its own, or
/// shares one that has no entry, and isn't leaving it.
pub fn take(memory: &Memory, place: u32, page: u32) -> Option<Sample>
    ensures some { IfSome result (λ sample. (g : ℕ)
        × IsSampledOn memory.now place page g
        × (sample.bytes ≡ frame_bytes memory.now g)) }
    ensures none { IfNone result (HasNoSample memory.now place page) }
{
    if let Some(frame) = memory.private_frame(place, page) {
        return Some(Sample {
            bytes: *memory.bytes_of(frame),
        });
    }
    let on = memory.unlisted_frame(place, page)?;
    Some(Sample {
        bytes: *memory.bytes_of(on.frame),
    })
}
