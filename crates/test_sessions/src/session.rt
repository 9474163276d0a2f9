//! What is done with the lines of tables.

use crate::line::Line;
use crate::script::{Script, add_line, count_lines};
use crate::shelf::Shelf;
use anyhow::{Context, Result, bail};
use std::alloc::Global;
use std::collections::HashMap;
use std::sync::Wait;
use std::thread::Threads;
use std::{fmt, mem};
use wh_settings::Workers;

/// With how many workers scripts are run, in turn.
const NUMBERS: [u8; 4] = [1, 2, 5, 64];

/// With how many workers each script is run that was made for rounds.
const NUMBERS_FOR_ROUNDS: [u8; 4] = [1, 2, 4, 8];

/// How many scripts get the replies that they are to, how many replies these are, and how many scripts get others.
#[derive(Clone, Copy)]
pub struct Tally {
    /// Scripts that get what they are to.
    pub agreed: usize,
    /// The replies to those.
    pub replies: usize,
    /// Scripts that get something else.
    pub wrong: usize,
}

impl Tally {
    /// No script was run yet.
    const NONE: Tally = Tally {
        agreed: 0,
        replies: 0,
        wrong: 0,
    };

    /// Of these scripts and others.
    fn plus(self, other: Tally) -> Tally {
        Tally {
            agreed: self.agreed.saturating_add(other.agreed),
            replies: self.replies.saturating_add(other.replies),
            wrong: self.wrong.saturating_add(other.wrong),
        }
    }
}

impl fmt::Display for Tally {
    fn fmt<W: fmt::Write>(&self, f: &mut fmt::Formatter<W>) -> fmt::Result {
        let agreed = self.agreed;
        let replies = self.replies;
        let wrong = self.wrong;
        write!(
            f,
            "{agreed} scripts agree, with {replies} replies; {wrong} differ"
        )
    }
}

/// The files and settings that were named, the script whose lines are read, and how others fared.
pub struct Session {
    shelf: Shelf,
    settings: HashMap<String, String>,
    document: String,
    script: Option<Script>,
    // How many scripts were run.
    count: usize,
    table: Tally,
    sums: Tally,
}

impl Drop for Session {
    fn drop(self) {
        let Session {
            shelf: _,
            settings: _,
            document: _,
            script: _,
            count: _,
            table: _,
            sums: _,
        } = self;
    }
}

impl Session {
    /// Creates a session of which no line was read yet.
    pub fn new(alloc: Global) -> Session {
        Session {
            shelf: Shelf::new(alloc),
            settings: HashMap::new(alloc),
            document: String::new(alloc),
            script: None,
            count: 0,
            table: Tally::NONE,
            sums: Tally::NONE,
        }
    }

    /// Returns how all scripts of tables that have ended fared.
    pub fn sums(&self) -> Tally {
        self.sums
    }

    /// Ends a table, and says how its scripts fared.
    pub fn end_table(&mut self) -> Tally {
        let table = self.table;
        self.table = Tally::NONE;
        self.sums = self.sums.plus(table);
        table
    }

    /// With how many workers the next script is run.
    fn next_workers(&mut self) -> u8 {
        let number = NUMBERS[self.count % NUMBERS.len()];
        self.count = self.count.wrapping_add(1);
        number
    }

    /// Runs a script with `number` workers. Whether it gets what it is to; where it doesn't, the first difference is
    /// printed.
    fn is_right(
        &self,
        rt: &(impl Print + AllocGlobal + Threads + Wait + Copy + Send + Sync + 'static),
        script: &Script,
        number: u8,
    ) -> Result<bool> {
        let workers = Workers::new(number).unwrap_or(Workers::default());
        let replies = script.replies(rt, &self.shelf, workers)?;
        if replies.as_str() == script.wanted.as_str() {
            return Ok(true);
        }
        script.print_difference(rt, number, &replies)?;
        Ok(false)
    }

    /// Runs a script as often as it is to be, and counts how it fares.
    fn judge(
        &mut self,
        rt: &(impl Print + AllocGlobal + Threads + Wait + Copy + Send + Sync + 'static),
        script: &Script,
    ) -> Result<()> {
        let mut is_right = true;
        if script.is_for_rounds {
            for number in NUMBERS_FOR_ROUNDS {
                is_right = self.is_right(rt, script, number)? && is_right;
            }
        } else {
            let number = self.next_workers();
            is_right = self.is_right(rt, script, number)?;
        }
        if is_right {
            let replies = count_lines(script.wanted.as_str());
            self.table.agreed = self.table.agreed.saturating_add(1);
            self.table.replies = self.table.replies.saturating_add(replies);
        } else {
            self.table.wrong = self.table.wrong.saturating_add(1);
        }
        Ok(())
    }

    /// Runs the script whose lines were read, if there is one.
    pub fn finish(
        &mut self,
        rt: &(impl Print + AllocGlobal + Threads + Wait + Copy + Send + Sync + 'static),
    ) -> Result<()> {
        match mem::replace(&mut self.script, None) {
            Some(script) => self
                .judge(rt, &script)
                .context(format_args!("script {}", script.name)),
            None => Ok(()),
        }
    }

    /// Names a document of settings, in which nothing stands yet.
    fn begin_settings(&mut self, alloc: Global, name: &str) -> Result<()> {
        self.document = String::from_str(alloc, name)?;
        self.settings
            .insert(String::from_str(alloc, name)?, String::new(alloc))?;
        Ok(())
    }

    /// Adds a line to the document of settings that was named last.
    fn add_setting(&mut self, line: &str) -> Result<()> {
        match self.settings.get_mut(self.document.as_str()) {
            Some(document) => add_line(document, line),
            None => bail!("no settings are named"),
        }
    }

    /// Begins a script with these settings.
    fn begin_script(
        &mut self,
        alloc: Global,
        name: &str,
        settings: &str,
        is_ended: bool,
        is_for_rounds: bool,
    ) -> Result<()> {
        let Some(document) = self.settings.get(settings) else {
            bail!("no settings have this name");
        };
        self.script = Some(Script {
            name: String::from_str(alloc, name)?,
            settings: document.clone()?,
            is_ended,
            is_for_rounds,
            given: String::new(alloc),
            wanted: String::new(alloc),
        });
        Ok(())
    }

    /// Adds a line to the script.
    fn add_given(&mut self, line: &str) -> Result<()> {
        match &mut self.script {
            Some(script) => add_line(&mut script.given, line),
            None => bail!("no script is named"),
        }
    }

    /// Adds a reply to those that the script is to get.
    fn add_wanted(&mut self, line: &str) -> Result<()> {
        match &mut self.script {
            Some(script) => add_line(&mut script.wanted, line),
            None => bail!("no script is named"),
        }
    }

    /// Takes a line in. One that begins with a word ends the script before.
    pub fn take(
        &mut self,
        rt: &(impl Print + AllocGlobal + Threads + Wait + Copy + Send + Sync + 'static),
        text: &str,
    ) -> Result<()> {
        match Line::parse(rt.alloc(), text)? {
            Line::Nothing => Ok(()),
            Line::File { path, digits } => {
                self.finish(rt)?;
                self.shelf.put(rt.alloc(), path, digits)
            }
            Line::Settings(name) => {
                self.finish(rt)?;
                self.begin_settings(rt.alloc(), name)
            }
            Line::Setting(line) => self.add_setting(line),
            Line::Script {
                name,
                settings,
                is_ended,
                is_for_rounds,
            } => {
                self.finish(rt)?;
                self.begin_script(rt.alloc(), name, settings, is_ended, is_for_rounds)
            }
            Line::Given(line) => self.add_given(line),
            Line::Wanted(line) => self.add_wanted(line),
        }
    }
}
