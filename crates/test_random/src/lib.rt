//! Numbers that look random and are the same in each run, for tests.
#![tactic(auto)]

ghost use Rattle.std.specs.Prelude.{◌<◌};

/// A generator by three shifts (George Marsaglia's xorshift, of 64 bits).
#[derive(Drop)]
pub struct Random {
    state: u64,
}

impl Random {
    /// Begins here, at any number but 0.
    pub fn new(state: u64) -> Random {
        Random { state }
    }

    fn next(&mut self) -> u64 {
        self.state ^= self.state << 13;
        self.state ^= self.state >> 7;
        self.state ^= self.state << 17;
        self.state
    }

    /// Returns the next number, below `end`.
    pub fn below(&mut self, end: u32) -> u32
        requires { 0 < end }
        ensures { result < end }
    {
        ((self.next() >> 11) % u64::from(end)) as u32
    }
}
