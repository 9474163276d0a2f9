//! Why the program stops.

ghost use Rattle.std.specs.Prelude.{◌≡◌};
ghost use Rattle.wasmhost_program.specs.ProgramOutput.{outcome_of};

use thiserror::Error;
use wh_script::ScriptFault;

/// Why the program stops before its script has ended.
#[derive(Clone, Copy, Debug, PartialEq, Eq, Error)]
pub enum ProgramFault {
    /// The settings can't be read, or aren't settings.
    #[error("settings")]
    Settings,
    /// The file to which pages are swapped can't be opened.
    #[error("swap")]
    Swap,
    /// The script stops, or isn't begun.
    #[error("{0}")]
    Script(ScriptFault),
}

/// Returns the outcome of the program whose script had this one.
pub fn outcome_of(script: Result<(), ScriptFault>) -> Result<(), ProgramFault>
    ensures { result ≡ outcome_of script }
{
    match script {
        Ok(()) => Ok(()),
        Err(fault) => Err(ProgramFault::Script(fault)),
    }
}
