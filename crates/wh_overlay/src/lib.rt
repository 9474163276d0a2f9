//! The memory of one instance, read while others read it and written in an overlay.
//!
//! While several instances compute at once nobody may change the memory on which all lie. An `Overlay` reads it there,
//! and what its instance writes, it writes to pages of its own, `OverlayPages`. When all have stopped these are written back,
//! one instance after the other, and the memory is as if each had run by itself.
#![tactic(auto)]

mod laying;
mod linear;
mod overlay;
mod overlay_pages;

pub use overlay::Overlay;
pub use overlay_pages::{OverlayPages, WrittenPage};
