//! What an owner asks of a host to have a module let go.

ghost use Rattle.std.specs.Prelude.{◌≡◌};
ghost use Rattle.wh_host_model.specs.Host.Events.{unload};
ghost use Rattle.wh_host.specs.Unloading.{AnswersUnload};

use crate::error::UnloadError;
use crate::host::Host;
use crate::parts::ModuleId;
use crate::request::{Request, sealed};

/// Asks for a module to be let go that no instance is of.
#[derive(Clone, Copy)]
pub struct Unload {
    /// The module.
    pub id: ModuleId,
}

impl sealed::Sealed for Unload {}

impl Request for Unload {
    type Answer = ();

    type Error = UnloadError;

    ghost asks = { λ r h answer h2. AnswersUnload h r.id.number answer h2 × (h2.space ≡ h.space) };

    ghost counted = { λ r h h2. h.counts };

    fn ask(self, host: &mut Host) -> Result<(), UnloadError> {
        host.unload(self.id)
    }

    ghost leads = { λ r h answer h2 asked w is.
        let x = asked.0 w is in (unload r.id.number, x.1, tt, (x.0, x.3), x.4) };
}
