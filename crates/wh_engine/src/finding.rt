// Instances that are found by their numbers.

ghost use Rattle.std.specs.Prelude.{◌<◌, IfSome, MatchOption, length};
ghost use Rattle.wh_engine.specs.Finding.{HasNoNumber, HasNumberAt, RiseFrom};

use crate::parts::NamedInstance;
use crate::script_host::ScriptHost;
use std::sync::ledger::Ledger;
use wh_cell::CellAgreements;
use wh_swap::SwapDev;

// Where the instance of a number stands, the numbers rising.
pub(crate) fn place_of(instances: &[NamedInstance], number: usize) -> Option<usize>
    ensures within { IfSome result (λ at. at < length instances.now) }
    ensures found { MatchOption result (RiseFrom 0 instances.now → HasNoNumber instances.now number)
        (HasNumberAt instances.now number) }
{
    let number = number as u64;
    let at = instances.partition_point(|instance| instance.id.number < number);
    if at < instances.len() && instances[at].id.number == number {
        return Some(at);
    }
    None
}

impl<D: SwapDev, T: Ledger, C: Ledger, O: Ledger, E: Ledger, B: CellAgreements> ScriptHost<
    D,
    T,
    C,
    O,
    E,
    B,
> {
    // Where the instance of a number is kept.
    pub(crate) fn kept_at(&self, number: usize) -> Option<usize>
        ensures within { IfSome result (λ at. at < length self.now.instances) }
        ensures found { MatchOption result (RiseFrom 0 self.now.instances → HasNoNumber
            self.now.instances number) (HasNumberAt self.now.instances number) }
    {
        place_of(&self.instances, number)
    }
}
