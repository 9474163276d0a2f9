// What a desk's refusals tell.

ghost use Rattle.wh_desk.specs.AsNone.{InstancesAsNone, ModulesAsNone};

/// States that what is replied to who may not ask, about a stranger's instance or for one of a stranger's module, is what the host
/// replies where there is none. Does nothing when run.
pub fn strangers_find_none()
    ensures instances { InstancesAsNone }
    ensures modules { ModulesAsNone }
{}
