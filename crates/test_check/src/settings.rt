//! Documents of settings, and what is said of each.

use anyhow::{Result, ensure};
use std::alloc::Global;
use wh_explain::{SettingsVerdict, explain_settings};

// Documents that are accepted.
const ACCEPTED: [&str; 3] = [
    "",
    "# nothing\n",
    "frames = 2\nslots = 1048576\ntax_num = 0\ntax_den = 1\nquantum = 1\nhash = \"constant\"\nswap = \"/tmp/slots\"\n",
];

// Documents that are refused, each with all that is said of it.
const REFUSED: [(&str, &str); 18] = [
    (
        "frames = 1",
        "frames is 1, and has to be a number from 2 to 262144. ",
    ),
    (
        "frames = 262145",
        "frames is 262145, and has to be a number from 2 to 262144. ",
    ),
    (
        "frames = \"2\"",
        "frames is \"2\", and has to be a number from 2 to 262144. ",
    ),
    (
        "frames = 2.0",
        "frames is a value of type float, and has to be a number from 2 to 262144. ",
    ),
    (
        "slots = 0",
        "slots is 0, and has to be a number from 1 to 1048576. ",
    ),
    (
        "quantum = 1000001",
        "quantum is 1000001, and has to be a number from 1 to 1000000. ",
    ),
    (
        "tax_num = -1",
        "tax_num is -1, and has to be a number from 0 to 999. ",
    ),
    (
        "tax_den = 1001",
        "tax_den is 1001, and has to be a number from 1 to 1000. ",
    ),
    (
        "tax_num = 4",
        "tax_num is 4, and has to be below tax_den, which is 4. ",
    ),
    (
        "tax_den = 3",
        "tax_num is 3, and has to be below tax_den, which is 3. ",
    ),
    (
        "hash = \"md5\"",
        "hash is \"md5\", and has to be \"fnv64\" or \"constant\". ",
    ),
    (
        "hash = 0",
        "hash is 0, and has to be \"fnv64\" or \"constant\". ",
    ),
    (
        "swap = 1",
        "swap is 1, and has to be a path in quotes, and not an empty one. ",
    ),
    (
        "swap = \"\"",
        "swap is \"\", and has to be a path in quotes, and not an empty one. ",
    ),
    ("workers = 4", "workers is 4, and there is no such key. "),
    (
        "[frames]",
        "frames is a value of type table, and has to be a number from 2 to 262144. ",
    ),
    (
        "frames = 1\nspeed = true\nslots = 0",
        "frames is 1, and has to be a number from 2 to 262144. slots is 0, and has to be a number from 1 to 1048576. speed is a value of type boolean, and there is no such key. ",
    ),
    (
        "frames = 2\nslots",
        "line 2, column 6: this is no TOML: key with no value, expected `=`. ",
    ),
];

/// All that is said of a document that is refused.
fn told(alloc: Global, verdict: &SettingsVerdict) -> Result<String> {
    let mut text = String::new(alloc);
    for finding in &verdict.findings {
        text.push_str(&format!(in alloc; "{finding}. ")?)?;
    }
    Ok(text)
}

/// Fails where a document isn't refused for this.
fn expect_refused(alloc: Global, text: &str, wanted: &str) -> Result<()> {
    let verdict = explain_settings(alloc, text.as_bytes())?;
    let said = told(alloc, &verdict)?;
    ensure!(
        !verdict.is_accepted && said.as_str() == wanted,
        "{text}: {said}"
    );
    Ok(())
}

/// Fails where a document isn't accepted.
fn expect_accepted(alloc: Global, text: &str) -> Result<()> {
    let verdict = explain_settings(alloc, text.as_bytes())?;
    ensure!(
        verdict.is_accepted && verdict.findings.is_empty(),
        "{text}: refused"
    );
    Ok(())
}

/// Fails if a document of `length` spaces isn't accepted, or not refused, as it has to be.
fn expect_length(alloc: Global, length: usize, is_accepted: bool) -> Result<()> {
    let spaces = vec![in alloc; b' '; length]?;
    let verdict = explain_settings(alloc, &spaces)?;
    ensure!(verdict.is_accepted == is_accepted, "{length} bytes");
    Ok(())
}

/// Looks at each document: how many they are.
pub fn check(alloc: Global) -> Result<usize> {
    for text in ACCEPTED.iter() {
        expect_accepted(alloc, text)?;
    }
    for (text, wanted) in REFUSED.iter() {
        expect_refused(alloc, text, wanted)?;
    }
    expect_length(alloc, 65536, true)?;
    expect_length(alloc, 65537, false)?;
    Ok(ACCEPTED.len() + REFUSED.len() + 2)
}
