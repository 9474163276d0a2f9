//! One call of a module, from its bytes to its outcome.

ghost use Rattle.std.specs.Prelude.{IfOk, IfErr};
ghost use Rattle.wh_initial.specs.Given.{view_parameters};
ghost use Rattle.wh_alone.specs.ModuleCalls.{RefusesModule};
ghost use Rattle.wh_alone.specs.ModuleRuns.{RunsModule};

use crate::instance::Instance;
use crate::outcome::{CallError, CallResult, Outcome};
use std::alloc::Global;
use wh_initial::Parameters;

/// Decodes, validates and links a module, creates an instance of it with these parameters, runs its start function, if
/// there is one, and then calls the function of this index with these arguments, each of the two with this fuel.
/// Returns the outcome, and the instance as it is then.
///
/// # Errors
/// Why the bytes aren't accepted, or the module has no instance with these parameters.
pub fn call_module(
    alloc: Global,
    bytes: &[u8],
    parameters: Parameters,
    func: u32,
    args: &[u64],
    fuel: u64,
) -> Result<(Instance, CallResult), CallError>
    ensures ok { IfOk result
        (λ r. RunsModule bytes.now (view_parameters parameters) func args.now fuel r.1 r.0) }
    ensures err { IfErr result (RefusesModule bytes.now (view_parameters parameters)) }
{
    let mut instance = Instance::new(alloc, bytes, parameters)?;
    let started = match instance.run(fuel) {
        None => 0,
        Some((outcome, charges)) => {
            let Outcome::Returned(_) = outcome else {
                return Ok((instance, CallResult::Start(outcome, charges)));
            };
            charges
        }
    };
    match instance.call(func, args, fuel) {
        Ok((outcome, charges)) => Ok((
            instance,
            CallResult::Call {
                started,
                outcome,
                charges,
            },
        )),
        Err(_) => Ok((instance, CallResult::NoCall(started))),
    }
}
