//! How many threads run calls.

ghost use Rattle.std.specs.Prelude.{◌≡◌, ◌≤◌, IfSome, IfNone};

/// How many threads run calls: 1 to 64.
#[derive(Clone, Copy, Debug, PartialEq, Eq)]
pub struct Workers {
    number: u8,
    ghost above: { 1 ≤ number },
    ghost within: { number ≤ 64 },
}

impl Workers {
    /// Returns this number of workers, if it is 1 to 64.
    pub fn new(number: u8) -> Option<Workers>
        ensures some { IfSome result (λ workers. workers.number ≡ number) }
        ensures none { IfNone result (¬ ((1 ≤ number) × (number ≤ 64))) }
    {
        if number < 1 || number > 64 {
            return None;
        }
        Some(Workers { number })
    }

    /// Returns the default number of workers, 4.
    pub fn default() -> Workers
        ensures { result.number ≡ 4 }
    {
        Workers { number: 4 }
    }

    /// Returns the number of workers, 1 to 64.
    pub fn count(self) -> usize
        ensures number { result ≡ self.number }
        ensures above { 1 ≤ result }
        ensures within { result ≤ 64 }
    {
        usize::from(self.number)
    }
}
