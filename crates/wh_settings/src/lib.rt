//! The settings of a host, as a document in TOML says them, and how many threads run its calls.
#![tactic(auto)]

mod error;
mod hashing;
mod laws;
mod numbers;
mod reading;
mod settings;
mod words;
mod workers;

pub use error::SettingsError;
pub use laws::one_reading;
pub use reading::read_settings;
pub use settings::{HashKind, Settings};
pub use workers::Workers;

/// The version that the programs tell.
pub const VERSION: &str = "0.1.0";
