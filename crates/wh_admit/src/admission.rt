//! Whether an instance is admitted, and what it begins with.

ghost use Rattle.std.specs.Prelude.{OnOk, IfOk, IfErr};
ghost use Rattle.std.specs.Option.{option_copied};
ghost use Rattle.wh_syntax.specs.View.{view_module};
ghost use Rattle.wh_params.specs.View.{view_params};
ghost use Rattle.wh_admit.specs.View.{linked_module};
ghost use Rattle.wh_admit.specs.AdmissionNumbers.{AreShares, AreFrames};
ghost use Rattle.wh_admit.specs.AdmittedStart.{BeginsAs, BeginsAdmitted, RefusesBeginning};
ghost use Rattle.wh_admit.specs.AdmissionFaults.{MeetsNone, RefusesAdmission};

use crate::error::AdmitError;
use crate::limits::FRAMES_OF_PAGE;
use crate::outcome::Admitted;
use crate::quotas::check_numbers;
use crate::room::Room;
use crate::words::are_words;
use std::alloc::Global;
use wh_imports::Linked;
use wh_initial::{Parameters, instantiate};
use wh_machine::Machine;
use wh_params::Params;

/// Makes what an instance begins with, where the numbers that its owner gives are admitted.
///
/// # Errors
/// `MemoryMin` or `SegmentBounds`, the first of them that holds; else `Memory` where a growth was refused.
fn begin(alloc: Global, linked: &Linked, params: Params) -> Result<Admitted, AdmitError>
    requires shares { AreShares params.quota.shares }
    requires frames { AreFrames params.quota.min_frames params.quota.max_frames }
    ensures ok { IfOk result
        (BeginsAs (view_module linked.now.valid.decoded) (view_params params)) }
    ensures err { IfErr result
        (RefusesBeginning (view_module linked.now.valid.decoded) (view_params params)) }
{
    are_words(&params.inputs);
    let Params {
        quota,
        fuel,
        base,
        salt,
        inputs,
    } = params;
    let parameters = Parameters {
        base,
        salt,
        inputs,
        page_limit: (quota.max_frames / FRAMES_OF_PAGE) as u32,
    };
    let begun = instantiate(alloc, linked, parameters)?;
    let machine = Machine::new(alloc)?;
    Ok(Admitted {
        begun,
        machine,
        shares: quota.shares as u32,
        min: quota.min_frames as u32,
        max: quota.max_frames as u32,
        fuel,
    })
}

/// Decides whether an instance is admitted of the module that is meant, and makes what it begins with. `linked` is
/// `None` where no module has the number that was asked for.
///
/// # Errors
/// The first fault, in the order of their numbers. Memory is asked for only where none of the others holds.
pub fn admit(
    alloc: Global,
    linked: Option<&Linked>,
    params: Params,
    room: Room,
) -> Result<Admitted, AdmitError>
    // It meets no fault.
    ensures ok { OnOk result
        (MeetsNone (linked_module (option_copied linked.entry)) room (view_params params)) }
    // It begins as the definition of instantiation says.
    ensures begins { IfOk result
        (BeginsAdmitted (linked_module (option_copied linked.entry)) (view_params params)) }
    // The fault that is named is the first that it meets; where memory runs out it meets none.
    ensures err { IfErr result
        (RefusesAdmission (linked_module (option_copied linked.entry)) room (view_params params)) }
{
    let Some(linked) = linked else {
        return Err(AdmitError::NoModule);
    };
    check_numbers(params.quota, room)?;
    begin(alloc, linked, params)
}
