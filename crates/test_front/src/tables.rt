//! The outcome of a table of cases.

use anyhow::{Result, bail};

/// Fails where a row of a table came out otherwise than it says: the first such row.
pub fn agree(table: &str, wrong: Option<usize>) -> Result<()> {
    match wrong {
        Some(row) => bail!("{table}: row {row} came out otherwise"),
        None => Ok(()),
    }
}
