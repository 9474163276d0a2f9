// What has ended, so that nothing is said of it any more.

ghost use Rattle.std.specs.Prelude.{◌≡◌, false, not};
ghost use Rattle.std.specs.List.{filter};
ghost use Rattle.wh_replies.specs.View.{status_of};
ghost use Rattle.wh_script_laws.specs.Printed as printed_spec;
ghost use Rattle.wh_engine.specs.RepresentedScript as standing;

use crate::parts::{Invoked, NamedInstance};
use wh_replies::Status;

// Whether a call that is said to be so has ended.
fn is_final(status: Status) -> bool
    ensures { result ≡ printed_spec.is_final (status_of status) }
{
    match status {
        Status::Fuel { .. } | Status::Frame { .. } | Status::Queued => false,
        _ => true,
    }
}

// Whether a call was last said to have ended.
fn was_final(last_printed: Option<Status>) -> bool
    ensures { result ≡ standing.was_final last_printed }
{
    match last_printed {
        Some(status) => is_final(status),
        None => false,
    }
}

// Whether an instance is released, and its start was said to have ended, if it has one.
pub(crate) fn is_over(instance: &NamedInstance) -> bool
    ensures { result ≡ standing.is_over instance.now }
{
    instance.is_released && (!instance.has_start || was_final(instance.last_printed))
}

// Lets instances go of which no line is to come, where there may be some.
pub(crate) fn forget_instances(instances: &mut Vec<NamedInstance>, has_some: bool)
    requires { has_some ≡ false
        → filter (λ x. not (standing.is_over x)) instances.old.items ≡ instances.old.items }
    ensures { instances.new.items ≡ filter (λ x. not (standing.is_over x)) instances.old.items }
{
    if has_some {
        instances.retain(|instance| !is_over(instance));
    }
}

// Lets calls go that were said to have ended.
pub(crate) fn forget_calls(invoked: &mut Vec<Invoked>)
    ensures { invoked.new.items ≡ filter (λ x. not (standing.is_settled x)) invoked.old.items }
{
    invoked.retain(|call| !was_final(call.last_printed));
}
