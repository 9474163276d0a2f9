// The tables of what is done to a memory.

use crate::ground::{Ground, first_other};
use crate::steps::Case;
use crate::told::tell;
use crate::{leaving, offers, sharing, taxes, views};
use anyhow::{Result, bail};

// Takes the steps of a case, with a line that they agree.
fn take_all(rt: &(impl Print + AllocGlobal), case: &Case) -> Result<()> {
    let mut ground = Ground::new(rt.alloc(), case.begin)?;
    let before = first_other(&mut ground, rt.alloc(), case.begin.steps);
    let other = first_other(&mut ground, rt.alloc(), case.steps);
    ground.finish();
    if let Some(row) = before {
        bail!("{}: behind {row} rows it began otherwise", case.name);
    }
    let rows = case.begin.steps.len().saturating_add(case.steps.len());
    tell(rt, case.name, rows, other)
}

/// Takes the steps of all cases, with a line for each. Each file of tables calls it for its own: constants of hundreds of rows in one
/// function take much longer to prove.
pub fn take_each(rt: &(impl Print + AllocGlobal), cases: &[Case]) -> Result<()> {
    for case in cases {
        take_all(rt, case)?;
    }
    Ok(())
}

/// Takes all tables, and prints a line for each.
pub fn run(rt: &(impl Print + AllocGlobal)) -> Result<()> {
    sharing::run(rt)?;
    offers::run(rt)?;
    leaving::run(rt)?;
    views::run(rt)?;
    taxes::run(rt)
}
