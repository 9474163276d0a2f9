// A line for each table.

use anyhow::{Result, bail};

/// Prints that `rows` rows of a table agree, or fails if one, `other`, came out otherwise.
pub fn tell(rt: &impl Print, name: &str, rows: usize, other: Option<usize>) -> Result<()> {
    if let Some(row) = other {
        bail!("{name}: behind {row} rows that agree one came out otherwise");
    }
    println!(rt; "{name}: {rows} rows agree")?;
    Ok(())
}
