//! The outcome of a table of cases.

use anyhow::{Result, bail};

/// Fails where a row of a table came out otherwise than it says: the first such row.
pub fn agree(table: &str, wrong: Option<usize>) -> Result<()> {
    match wrong {
        Some(row) => bail!("{table}: row {row} came out otherwise"),
        None => Ok(()),
    }
}

/// Fails if a place of a row of a table, whose rows have several, came out otherwise.
pub fn agree_in_rows(table: &str, wrong: Option<(usize, usize)>) -> Result<()> {
    match wrong {
        Some((row, place)) => bail!("{table}: row {row} came out otherwise at place {place}"),
        None => Ok(()),
    }
}

/// Returns the first place at which two lists of one length differ.
pub fn first_other<T: PartialEq, const N: usize>(came: &[T; N], wanted: &[T; N]) -> Option<usize> {
    for (place, (one, other)) in came.iter().zip(wanted).enumerate() {
        if one != other {
            return Some(place);
        }
    }
    None
}
