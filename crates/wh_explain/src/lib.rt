//! Why the host refuses a module, settings or lines of a script: verdicts that are its own, told in sentences and as JSON.
//!
//! [`explain_module`] and [`explain_settings`] take the bytes of a file, [`explain_script`] reads one; each gives a value that
//! says what the host says, and why. `write_module` and its like write that in sentences, `module_json` and its like as JSON.
#![tactic(auto)]

mod advice;
mod answer;
mod cause;
mod detail;
mod entries;
mod extents;
mod function_names;
mod indexed;
mod inside;
mod json;
mod later;
mod limit;
mod module;
mod names;
mod operands;
mod outside;
mod place;
mod reader;
mod script;
mod section;
mod settings;
mod shapes;
mod text;
mod walk;

pub use detail::{Asked, Detail, LeftOut, Mismatch};
pub use extents::MOST_MODULE_BYTES;
pub use indexed::{IndexSpace, Unnamed};
pub use json::{module_json, script_json, settings_json};
pub use limit::Limit;
pub use module::{FaultCode, ModuleVerdict, Name, Refusal, explain_module};
pub use place::FaultLocation;
pub use script::{LineCause, LineFinding, ScriptVerdict, explain_line, explain_script};
pub use section::Section;
pub use settings::{
    MOST_SETTINGS_BYTES, SettingCause, SettingFinding, SettingsVerdict, explain_settings,
};
pub use shapes::{Param, Shape, WordFault, WordKind};
pub use text::{write_module, write_script, write_settings};
