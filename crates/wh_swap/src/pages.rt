// Where a device over a stream keeps its pages.

ghost use Rattle.std.specs.Prelude.{◌≡◌, ◌≢◌, ◌*◌, ℕ, List, [], OnOk};
ghost use Rattle.std.specs.Io.Seek.{MovesTo};
ghost use Rattle.std.specs.Io.KnownBytes.{Keeps};

use std::io::{self, Read, Seek, SeekFrom, Write};

// How many bytes a page has.
const PAGE: u64 = 4096;

/// What keeps pages of 4096 bytes under numbers.
///
/// The traits of std don't tell what a write in the middle of a stream does to its bytes. So a store that is to be
/// known to keep them tells it here.
pub trait Pages {
    /// The store tells its bytes: what follows holds of each page.
    ghost tells: { Self → Type 0 };

    /// What each page is, where the store tells its bytes.
    ghost page: { Self → ℕ → List ℕ };

    /// Reads a page. An error says nothing of `into`.
    fn get(&mut self, at: u32, into: &mut [u8; 4096]) -> io::Result<()>
        ensures tells { tells self.old → tells self.new }
        ensures kept { tells self.old → (k : ℕ) → page self.new k ≡ page self.old k }
        ensures bytes { OnOk result (tells self.old → into.new ≡ page self.old at) };

    /// Writes a page. An error says nothing of this page.
    fn put(&mut self, at: u32, from: &[u8; 4096]) -> io::Result<()>
        ensures tells { tells self.old → tells self.new }
        ensures kept { tells self.old → (k : ℕ) → k ≢ at → page self.new k ≡ page self.old k }
        ensures bytes { OnOk result (tells self.old → page self.new at ≡ from.now) };
}

// Goes to where a page begins.
fn go_to<S: Seek>(stream: &mut S, page: u32) -> io::Result<()>
    ensures moves { MovesTo (S.stream_position stream.old) (S.stream_position stream.new)
        (4096 * page) result }
    ensures bytes { Keeps (S.stream_bytes stream.old) (S.stream_bytes stream.new) }
{
    stream.seek(SeekFrom::Start(PAGE * u64::from(page)))?;
    Ok(())
}

/// Pages that lie one after another in a stream: page `k` at byte `4096 * k`.
#[derive(Drop)]
pub struct StreamPages<F> {
    stream: F,
}

impl<F> StreamPages<F> {
    /// Returns the pages of this stream.
    pub fn new(stream: F) -> StreamPages<F> {
        StreamPages { stream }
    }
}

impl<F: Read + Write + Seek> Pages for StreamPages<F> {
    ghost tells = { λ _. ⊥ };

    ghost page = { λ _ _. [] };

    fn get(&mut self, at: u32, into: &mut [u8; 4096]) -> io::Result<()> {
        go_to(&mut self.stream, at)?;
        self.stream.read_exact(into)
    }

    fn put(&mut self, at: u32, from: &[u8; 4096]) -> io::Result<()> {
        go_to(&mut self.stream, at)?;
        self.stream.write_all(from)?;
        self.stream.flush()
    }
}
