// Who may have a call that can go on, since all calls last ran.

ghost use Rattle.std.specs.Prelude.{◌≡◌, ◌≢◌, [], IfOk};
ghost use Rattle.wh_engine.specs.Draining.{SomeGoes};

use crate::parts::NamedInstance;
use std::alloc::{AllocError, Global};
use wh_host::Host;
use wh_space_model::InstId;

/// The instances of which something was asked since all calls last ran: the next run asks these alone whether a call of theirs
/// can go on. Nothing rests on that nobody is forgotten: when lines are printed, all are looked at.
#[derive(Drop)]
pub struct AskedInstances {
    // By rising numbers, each once.
    ids: Vec<InstId>,
    // It may be any, since room for one was refused, or calls were left in the middle.
    may_be_any: bool,
}

// Which of these instances have a call that can go on.
fn going(alloc: Global, host: &Host, ids: &[InstId]) -> Result<Vec<InstId>, AllocError>
    ensures { IfOk result (λ going. going.items ≢ [] → SomeGoes host.now) }
{
    let mut going = Vec::new(alloc);
    for id in ids {
        if host.can_go_on(*id) {
            going.push(*id)?;
        }
    }
    Ok(going)
}

// The numbers and places of all instances.
fn all_ids(alloc: Global, instances: &[NamedInstance]) -> Result<Vec<InstId>, AllocError> {
    let mut ids = Vec::with_capacity(alloc, instances.len())?;
    for instance in instances {
        ids.push(instance.id)?;
    }
    Ok(ids)
}

impl AskedInstances {
    /// Creates an empty list.
    pub fn new(alloc: Global) -> AskedInstances {
        AskedInstances {
            ids: Vec::new(alloc),
            may_be_any: false,
        }
    }

    /// Notes that something was asked of an instance.
    pub fn add(&mut self, id: InstId) {
        let at = self.ids.partition_point(|other| other.number < id.number);
        if at < self.ids.len() && self.ids[at].number == id.number {
            return;
        }
        if self.ids.insert(at, id).is_err() {
            self.may_be_any = true;
        }
    }

    /// Notes that any instance may have a call that can go on.
    pub fn add_any(&mut self) {
        self.may_be_any = true;
    }

    /// Returns those that have a call that can make progress, by rising numbers, and empties the list.
    ///
    /// # Errors
    /// `AllocError` if an allocation fails. All is as it was.
    pub fn take_going(
        &mut self,
        alloc: Global,
        host: &Host,
        instances: &[NamedInstance],
    ) -> Result<Vec<InstId>, AllocError>
        ensures { IfOk result (λ going. going.items ≢ [] → SomeGoes host.now) }
    {
        let going = if self.may_be_any {
            going(alloc, host, &all_ids(alloc, instances)?)?
        } else {
            going(alloc, host, &self.ids)?
        };
        self.ids.clear();
        self.may_be_any = false;
        Ok(going)
    }
}
