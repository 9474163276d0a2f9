//! What a line may ask for.

use wh_params::Params;

/// What a line asks for: a call, or another command. Names are 1 to 32 of `a` to `z`, `0` to `9` and `_`.
#[derive(Debug, Drop)]
pub enum ParsedLine<'a> {
    /// A call.
    Invoke(InvokeCommand<'a>),
    /// Another command.
    Command(Command<'a>),
}

/// `invoke INST EXPORT FUEL [ARG ..]`: call an exported function.
#[derive(Debug, Drop)]
pub struct InvokeCommand<'a> {
    /// The name of the instance.
    pub inst: &'a str,
    /// The name by which the function is exported, a word.
    pub export: &'a str,
    /// How many charges the call may take.
    pub fuel: u64,
    /// The arguments, each of at most 20 digits, with a sign or none.
    pub args: Vec<i128>,
}

/// What a line asks for that asks for no call.
#[derive(Debug, Drop)]
pub enum Command<'a> {
    /// `module NAME HEX`: keep the module of these bytes under the name. Two hexadecimal digits are a byte, in either case.
    Module {
        /// The name.
        name: &'a str,
        /// The bytes; not empty.
        bytes: Vec<u8>,
    },
    /// `load NAME PATH`: keep the module of this file under the name.
    Load {
        /// The name.
        name: &'a str,
        /// The path, a word.
        path: &'a str,
    },
    /// `admit INST MODULE SHARES MIN MAX FUEL BASE SALT [INPUT ..]`: admit an instance of a module.
    Admit {
        /// The name of the instance.
        inst: &'a str,
        /// The name of the module.
        module: &'a str,
        /// What it is given.
        given: Params,
    },
    /// `drain`: run all calls until none can go on.
    Drain,
    /// `refuel INST N`, `cancel INST` or `retry INST`: act on the present call.
    Act {
        /// The name of the instance.
        inst: &'a str,
        /// What to do.
        action: CallAction,
    },
    /// `scan`: merge equal pages.
    Scan,
    /// `report`: show memory and instances.
    Report,
    /// `release INST`: end the instance, and show its output.
    Release {
        /// The name of the instance.
        inst: &'a str,
    },
}

/// What a line asks of the present call of an instance.
#[derive(Clone, Copy, Debug, PartialEq, Eq)]
pub enum CallAction {
    /// `refuel INST N`: give it more fuel.
    Refuel {
        /// How many charges more it may take.
        fuel: u64,
    },
    /// `cancel INST`: end it.
    Cancel,
    /// `retry INST`: let it try again, where it is blocked on a fault of the swap device.
    Retry,
}
