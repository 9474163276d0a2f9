// Chains through the frames, by which an entry is found.

ghost use Rattle.std.specs.Prelude.{◌≡◌, ℕ, ◌+◌, ◌^◌, ◌<◌, ◌≤◌, List, Some, IfOk, IfSome, length, replicate, slice_set, slice_index};
ghost use Rattle.wh_content.specs.Chains.{link_to, IsFalling, IsPlace, AreChains};
ghost use Rattle.wh_space_model.specs.declared.states.Mark.{Mark};

use std::alloc::{AllocError, Global};
use std::marker::Model;

// At each place a link to a frame before it, or none. The first places are those of the frames, by their numbers, and
// after them come the heads of the chains.
#[derive(Drop)]
pub struct Chains {
    // The number of the frame and 1, or 0.
    links: Vec<u32>,
}

impl Model for Chains {
    ghost use Rattle.std.specs.Prelude.{List, ℕ};

    ghost Value = { List ℕ };

    ghost use Rattle.wh_content.specs.Chains.{IsFalling};

    ghost view = { λ a. a.links.items };

    ghost invariant = { λ a. IsFalling a.links.items };
}

impl Chains {
    /// Creates `places` places without links.
    pub fn new(alloc: Global, places: usize) -> Result<Chains, AllocError>
        ensures { IfOk result (λ chains. chains ≡ replicate places 0) }
    {
        let links = vec![in alloc; 0; places]?;
        Ok(Chains { links })
    }

    /// Returns the frame to which the link at this place leads.
    pub fn next(&self, place: usize) -> Option<u32>
        requires { place < length self.now }
        ensures link { slice_index self.now place ≡ link_to result }
        ensures falls { IfSome result (λ frame. frame < place) }
    {
        match self.links[place] {
            0 => None,
            link => Some(link - 1),
        }
    }

    /// Returns the last place after this frame in a chain, from its head on.
    pub fn behind(&self, head: usize, frame: u32) -> usize
        requires within { head < length self.now }
        requires before { frame < head }
        ensures behind { frame < result }
        ensures within { result < length self.now }
        ensures last { slice_index self.now result ≤ frame + 1 }
        ensures place { (count bucket : ℕ) (marks : List Mark) → AreChains count marks self.now
            → bucket < count → IsPlace count marks bucket head → IsPlace count marks bucket result }
    {
        let mut place = head;
        while let Some(next) = self.next(place) {
            if next <= frame {
                break;
            }
            place = next as usize;
        }
        place
    }

    /// Inserts a frame into a chain: the link at this place leads to it now, and from it to where that led.
    pub fn insert(&mut self, place: usize, frame: u32)
        requires within { place < length self.old }
        requires before { frame < place }
        requires last { slice_index self.old place ≤ frame }
        requires few { frame + 1 < 2 ^ 32 }
        ensures { self.new
            ≡ slice_set (slice_set self.old frame (slice_index self.old place)) place (frame + 1) }
    {
        self.links[frame as usize] = self.links[place];
        self.links[place] = frame + 1;
    }

    /// Removes a frame, to which the link at this place leads, from its chain. Tells the caller that links fall.
    pub fn remove(&mut self, place: usize, frame: u32)
        requires within { place < length self.old }
        requires before { frame < place }
        ensures removed { self.new ≡ slice_set self.old place (slice_index self.old frame) }
        ensures falls { IsFalling self.old }
    {
        self.links[place] = self.links[frame as usize];
    }
}
