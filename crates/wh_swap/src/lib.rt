//! The device to which pages are swapped: a trait, and devices in memory and over a stream.
#![tactic(auto)]

mod counts;
mod device;
mod memory;
mod pages;
mod slots;
mod stream;
mod written;

pub use device::SwapDev;
pub use memory::MemSwap;
pub use pages::{Pages, StreamPages};
pub use slots::Slots;
pub use stream::{PageSwap, StreamSwap};
