//! What is done with the lines of tables.

use crate::line::Line;
use crate::trial::{Tally, Trial};
use anyhow::{Context, Result, bail, ensure};
use std::alloc::Global;
use std::collections::HashMap;
use std::mem;

/// All modules that were named, the lines on the last one, and how the others fared.
pub struct Session {
    modules: HashMap<String, Vec<u8>>,
    lines: Vec<String>,
    sums: Tally,
}

impl Drop for Session {
    fn drop(self) {
        let Session {
            modules: _,
            lines: _,
            sums: _,
        } = self;
    }
}

impl Session {
    /// Creates a session in which no module has been named yet.
    pub fn new(alloc: Global) -> Session {
        Session {
            modules: HashMap::new(alloc),
            lines: Vec::new(alloc),
            sums: Tally::NONE,
        }
    }

    /// Returns the number of modules that were named.
    pub fn modules(&self) -> usize {
        self.modules.len()
    }

    /// Returns how all expectations fared.
    pub fn sums(&self) -> Tally {
        self.sums
    }

    /// The bytes of a module that is named, or was before.
    fn bytes_of(&mut self, alloc: Global, name: &str, digits: Option<&str>) -> Result<Vec<u8>> {
        let Some(digits) = digits else {
            let Some(bytes) = self.modules.get(name) else {
                bail!("no module has this name");
            };
            return Ok(bytes.clone()?);
        };
        ensure!(
            !self.modules.contains_key(name),
            "another module has this name"
        );
        let bytes = match hex::decode(alloc, digits) {
            Ok(bytes) => bytes,
            Err(error) => bail!("the bytes aren't understood: {error}"),
        };
        self.modules
            .insert(String::from_str(alloc, name)?, bytes.clone()?)?;
        Ok(bytes)
    }

    /// Does what the lines say of a module with these bytes, and says how it fared.
    fn try_module(
        &mut self,
        rt: &(impl Print + AllocGlobal),
        trial: &mut Trial,
        bytes: &[u8],
        lines: &[String],
    ) -> Result<()> {
        trial.run(rt, bytes, lines)?;
        let Tally { agreed, wrong } = trial.tally;
        ensure!(agreed > 0 || wrong > 0, "nothing is wanted of it");
        println!(rt; "{}: {agreed} agree, {wrong} differ", trial.name)?;
        self.sums.agreed = self.sums.agreed.saturating_add(agreed);
        self.sums.wrong = self.sums.wrong.saturating_add(wrong);
        Ok(())
    }

    /// Does what the lines say, of which the first one names a module.
    fn run(&mut self, rt: &(impl Print + AllocGlobal), head: &str, lines: &[String]) -> Result<()> {
        let Line::Module { name, digits, .. } = Line::parse(rt.alloc(), head)? else {
            bail!("no module is named");
        };
        let bytes = self.bytes_of(rt.alloc(), name, digits)?;
        let mut trial = Trial::new(String::from_str(rt.alloc(), name)?);
        self.try_module(rt, &mut trial, &bytes, lines)
    }

    /// Does what the lines on the last module say.
    pub fn finish(&mut self, rt: &(impl Print + AllocGlobal)) -> Result<()> {
        let lines = mem::replace(&mut self.lines, Vec::new(rt.alloc()));
        match lines.first() {
            Some(head) => self.run(rt, head, &lines).context(format_args!("{head}")),
            None => Ok(()),
        }
    }

    /// Takes a line in. One that names a module ends those on the module before.
    pub fn take(&mut self, rt: &(impl Print + AllocGlobal), line: &str) -> Result<()> {
        if line.starts_with("module ") {
            self.finish(rt)?;
        }
        self.lines.push(String::from_str(rt.alloc(), line)?)?;
        Ok(())
    }
}
