//! What is done with the lines on one module.

use crate::found::Found;
use crate::line::Line;
use anyhow::{Context, Result, bail, ensure};
use std::alloc::Global;
use std::fmt;
use wh_alone::{CallError, Instance, Outcome};
use wh_initial::Parameters;
use wh_model::MOST_WASM_PAGES;

/// How many expectations agree with what came, and how many differ from it.
#[derive(Clone, Copy)]
pub struct Tally {
    /// Those that agree.
    pub agreed: usize,
    /// Those that differ.
    pub wrong: usize,
}

impl Tally {
    /// There are none yet.
    pub const NONE: Tally = Tally {
        agreed: 0,
        wrong: 0,
    };
}

/// A module, and how it fares.
pub struct Trial {
    /// Its name.
    pub name: String,
    /// What the call has taken that waits for fuel.
    taken: Option<u64>,
    /// How many lines agree.
    pub tally: Tally,
}

impl Drop for Trial {
    fn drop(self) {
        let Trial {
            name: _,
            taken: _,
            tally: _,
        } = self;
    }
}

/// Takes in what a line says of what the host gives an instance, and whether a call has come.
fn note_parameters(parameters: &mut Parameters, called: &mut bool, line: Line<'_>) -> Result<()> {
    match line {
        Line::Host { base, salt, inputs } => {
            ensure!(!*called, "parameters behind a call");
            parameters.base = base;
            parameters.salt = salt;
            parameters.inputs = inputs;
        }
        Line::Pages(pages) => {
            ensure!(!*called, "pages behind a call");
            parameters.page_limit = pages;
        }
        Line::Module { .. } => {}
        Line::Call { .. } | Line::More { .. } | Line::Output(_) => *called = true,
    }
    Ok(())
}

/// Takes in what all lines say of it.
fn note_all(alloc: Global, parameters: &mut Parameters, lines: &[String]) -> Result<()> {
    let mut called = false;
    for text in lines {
        let line = Line::parse(alloc, text).context(format_args!("{text}"))?;
        note_parameters(parameters, &mut called, line)?;
    }
    Ok(())
}

/// What the host gives an instance, by the lines before its first call.
fn parameters_of(alloc: Global, lines: &[String]) -> Result<Parameters> {
    let mut parameters = Parameters {
        base: 0,
        salt: 0,
        inputs: Vec::new(alloc),
        page_limit: MOST_WASM_PAGES,
    };
    note_all(alloc, &mut parameters, lines)?;
    Ok(parameters)
}

/// Runs the start function, if there is one.
fn start(instance: &mut Instance) -> Result<()> {
    match instance.run(u64::MAX) {
        None | Some((Outcome::Returned(_), _)) => Ok(()),
        Some(_) => bail!("the start function doesn't return"),
    }
}

impl Trial {
    /// Creates the trial of a module of this name, of which nothing is known yet.
    pub fn new(name: String) -> Trial {
        Trial {
            name,
            taken: None,
            tally: Tally::NONE,
        }
    }

    /// Counts an expectation, and prints what is wrong with it.
    fn judge(
        &mut self,
        rt: &impl Print,
        line: &str,
        agrees: bool,
        found: &impl fmt::Display,
    ) -> Result<()> {
        if agrees {
            self.tally.agreed = self.tally.agreed.saturating_add(1);
        } else {
            self.tally.wrong = self.tally.wrong.saturating_add(1);
            println!(rt; "{}: wanted {line}; came {found}", self.name)?;
        }
        Ok(())
    }

    /// Keeps what a call has taken, as long as it stands.
    fn note(&mut self, outcome: Outcome, charges: u64) -> Found {
        self.taken = match outcome {
            Outcome::OutOfFuel => Some(charges),
            Outcome::Returned(_) | Outcome::Trapped(_) => None,
        };
        Found::Ended(outcome, charges)
    }

    /// Calls an exported function with this fuel; a call that waits for fuel is given up.
    fn call(
        &mut self,
        instance: &mut Instance,
        export: &str,
        arguments: &[u64],
        fuel: u64,
    ) -> Found {
        let Some(func) = instance.func(export) else {
            return Found::NoCall;
        };
        instance.cancel();
        match instance.call(func, arguments, fuel) {
            Ok((outcome, charges)) => self.note(outcome, charges),
            Err(_) => Found::NoCall,
        }
    }

    /// The call that stands goes on with this fuel.
    fn more(&mut self, instance: &mut Instance, fuel: u64) -> Found {
        let Some(taken) = self.taken else {
            return Found::NotStanding;
        };
        match instance.run(fuel) {
            Some((outcome, charges)) => self.note(outcome, taken.saturating_add(charges)),
            None => Found::NotStanding,
        }
    }

    /// Looks whether these bytes have been put out.
    fn judge_output(
        &mut self,
        rt: &(impl Print + AllocGlobal),
        line: &str,
        output: &[u8],
        digits: &str,
    ) -> Result<()> {
        let output = hex::encode(rt.alloc(), output)?;
        let found = if output.is_empty() {
            "-"
        } else {
            output.as_str()
        };
        self.judge(rt, line, found == digits, &found)
    }

    /// Does what a line says of the instance.
    fn obey(
        &mut self,
        rt: &(impl Print + AllocGlobal),
        instance: &mut Instance,
        text: &str,
    ) -> Result<()> {
        match Line::parse(rt.alloc(), text)? {
            Line::Module {
                refusal: Some(_),
                ..
            } => self.judge(rt, text, false, &"an instance"),
            Line::Module { .. } | Line::Host { .. } | Line::Pages(_) => Ok(()),
            Line::Call {
                export,
                arguments,
                fuel,
                expected,
            } => {
                let found = self.call(instance, export, &arguments, fuel);
                self.judge(rt, text, expected.agrees(found), &found)
            }
            Line::More { fuel, expected } => {
                let found = self.more(instance, fuel);
                self.judge(rt, text, expected.agrees(found), &found)
            }
            Line::Output(digits) => self.judge_output(rt, text, instance.output(), digits),
        }
    }

    /// Does what the lines say of the instance.
    fn obey_all(
        &mut self,
        rt: &(impl Print + AllocGlobal),
        instance: &mut Instance,
        lines: &[String],
    ) -> Result<()> {
        start(instance)?;
        for text in lines {
            self.obey(rt, instance, text)?;
        }
        Ok(())
    }

    /// Looks whether a line wants the refusal that came.
    fn refuse_line(
        &mut self,
        rt: &(impl Print + AllocGlobal),
        found: &str,
        text: &str,
    ) -> Result<()> {
        match Line::parse(rt.alloc(), text)? {
            Line::Module { refusal, .. } => {
                let agrees = refusal.is_some_and(|refusal| refusal == found);
                self.judge(rt, text, agrees, &found)
            }
            Line::Host { .. } | Line::Pages(_) => Ok(()),
            Line::Call { .. } | Line::More { .. } | Line::Output(_) => {
                self.judge(rt, text, false, &found)
            }
        }
    }

    /// Looks at each line whether it wants the refusal that came.
    fn refuse(
        &mut self,
        rt: &(impl Print + AllocGlobal),
        error: CallError,
        lines: &[String],
    ) -> Result<()> {
        let found = format!(in rt.alloc(); "{}", Found::Refused(error))?;
        for text in lines {
            self.refuse_line(rt, &found, text)?;
        }
        Ok(())
    }

    /// Makes an instance of the module with these bytes, and does what the lines say.
    pub fn run(
        &mut self,
        rt: &(impl Print + AllocGlobal),
        bytes: &[u8],
        lines: &[String],
    ) -> Result<()> {
        let parameters = parameters_of(rt.alloc(), lines)?;
        match Instance::new(rt.alloc(), bytes, parameters) {
            Ok(mut instance) => self.obey_all(rt, &mut instance, lines),
            Err(error) => self.refuse(rt, error, lines),
        }
    }
}
