//! Control (sections 4.4.5 to 4.4.7 of the W3C WebAssembly Core Specification 1.0): words, frames and places, and how
//! branches and calls change them. No label is there at run time: a branch cuts the words to a height that is known
//! beforehand, and goes on at a place. Beside them stands [`Store`], what an instance has but for its memory.
#![tactic(auto)]

mod frame;
mod store;
mod words;

pub use frame::{CallFrame, CallStack};
pub use store::Store;
pub use words::{MOST_WORDS, ValueStack};
