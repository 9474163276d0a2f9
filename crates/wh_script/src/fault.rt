//! Why a script stops.

ghost use Rattle.std.specs.Prelude.{◌≡◌};
ghost use Rattle.wh_script.specs.Causes.{script_fault};

use thiserror::Error;
use wh_engine::RunFault;

/// Why a script stops before its end. What was written until then stays written.
#[derive(Clone, Copy, Debug, PartialEq, Eq, Error)]
pub enum ScriptFault {
    /// The script can't be opened or read.
    #[error("script")]
    Script,
    /// A reply can't be written.
    #[error("output")]
    Output,
    /// There is no memory for the host, for a drain, for a reply or for a report; or lines can't be counted, there being 2^64 of
    /// them.
    #[error("memory")]
    Memory,
    /// A call can go on that should have run.
    #[error("transcript")]
    Transcript,
}

// Calls that don't run to their ends stop a script.
impl From<RunFault> for ScriptFault {
    ghost from_gives = { λ stopped fault. fault ≡ script_fault stopped };

    fn from(stopped: RunFault) -> ScriptFault {
        match stopped {
            RunFault::Memory => ScriptFault::Memory,
            RunFault::Transcript => ScriptFault::Transcript,
        }
    }
}
