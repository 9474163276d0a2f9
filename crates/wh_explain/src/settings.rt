//! Whether settings are accepted, and why they aren't.

ghost use Rattle.std.specs.Prelude.{◌≡◌, ◌≤◌, length, IfOk, true, false};
ghost use Rattle.wh_explain.specs.Verdicts.{SpellsSome, SpellsNone, SaysOfSettings};

use crate::answer::Answer;
use std::alloc::{AllocError, Global};
use std::fmt;
use toml::de::Error;
use toml::{Table, Value};
use wh_settings::{SettingsError, read_settings};

/// How many bytes of settings are looked at.
pub const MOST_SETTINGS_BYTES: usize = 65536;

/// What a key is, and from which to which number it may be.
struct Range {
    key: &'static str,
    least: i64,
    most: i64,
}

const RANGES: [Range; 5] = [
    Range {
        key: "frames",
        least: 2,
        most: 262144,
    },
    Range {
        key: "slots",
        least: 1,
        most: 1048576,
    },
    Range {
        key: "tax_num",
        least: 0,
        most: 999,
    },
    Range {
        key: "tax_den",
        least: 1,
        most: 1000,
    },
    Range {
        key: "quantum",
        least: 1,
        most: 1000000,
    },
];

/// Why a document's settings are refused.
#[derive(Debug, Drop)]
pub enum SettingCause {
    /// It has more than 65536 bytes.
    TooLong,
    /// It is no TOML, or no UTF-8, at this line and this column, both from 1.
    NotToml(usize, usize, String),
    /// There is no such key.
    UnknownKey,
    /// The value is no number from the first to the second.
    NotInRange(i64, i64),
    /// The tax is not below 1: its `tax_den` is the number.
    TaxNotBelow(i64),
    /// The value names no hash.
    NoHash,
    /// The value is no path.
    NoPath,
    /// The host refuses it, and no cause is found here.
    Other,
}

/// One thing for which settings are refused.
#[derive(Debug, Drop)]
pub struct SettingFinding {
    /// The key that it is about, if it is about one.
    pub key: Option<String>,
    /// The value that stands there: a number, a text in quotes, or the name of its type.
    pub value: Option<String>,
    /// Why it is refused.
    pub cause: SettingCause,
}

/// Whether the host accepts settings.
#[derive(Debug, Drop)]
pub struct SettingsVerdict {
    /// Whether it does.
    pub is_accepted: bool,
    /// For what it refuses them.
    pub findings: Vec<SettingFinding>,
}

impl SettingFinding {
    /// A cause that is about the whole document.
    fn of_document(cause: SettingCause) -> SettingFinding {
        SettingFinding {
            key: None,
            value: None,
            cause,
        }
    }
}

/// What the host says of the bytes of a document.
fn answer_of(alloc: Global, bytes: &[u8]) -> Answer
    ensures { SaysOfSettings bytes.now result }
{
    match read_settings(alloc, bytes) {
        Ok(_) => Answer::Accepted,
        Err(SettingsError::Invalid) => Answer::Refused,
        Err(SettingsError::Memory) => Answer::Memory,
    }
}

/// The line and the column, both from 1, of the place after these bytes.
fn position(before: &[u8]) -> (usize, usize) {
    let mut line = 1usize;
    let mut column = 1usize;
    for byte in before {
        if *byte == b'\n' {
            line = line.saturating_add(1);
            column = 1;
        } else {
            column = column.saturating_add(1);
        }
    }
    (line, column)
}

/// Tells where and why a document is no TOML.
fn not_toml(alloc: Global, bytes: &[u8], error: Error) -> Result<SettingFinding, AllocError> {
    let Some(span) = error.span() else {
        return Err(AllocError);
    };
    let (line, column) = position(bytes.get(..span.start).unwrap_or(bytes));
    let message = String::from_str(alloc, error.message())?;
    Ok(SettingFinding::of_document(SettingCause::NotToml(line, column, message)))
}

/// The range of a key that is a number.
fn range_of(key: &str) -> Option<&'static Range> {
    RANGES.iter().find(|range| range.key == key)
}

/// Why a value is refused at a key; none where it is what the key may be.
fn cause_of(key: &str, value: &Value) -> Option<SettingCause> {
    if let Some(range) = range_of(key) {
        return match value.as_integer() {
            Some(number) if range.least <= number && number <= range.most => None,
            _ => Some(SettingCause::NotInRange(range.least, range.most)),
        };
    }
    match (key, value.as_str()) {
        ("hash", Some("fnv64" | "constant")) => None,
        ("hash", _) => Some(SettingCause::NoHash),
        ("swap", Some(path)) if !path.is_empty() => None,
        ("swap", _) => Some(SettingCause::NoPath),
        _ => Some(SettingCause::UnknownKey),
    }
}

/// A value as a person reads it: a number, a text in quotes, or the name of its type.
fn shown(alloc: Global, value: &Value) -> Result<String, AllocError> {
    if let Some(number) = value.as_integer() {
        return Ok(format!(in alloc; "{number}")?);
    }
    match value.as_str() {
        Some(text) => Ok(format!(in alloc; "{text:?}")?),
        None => Ok(format!(in alloc; "a value of type {}", value.type_str())?),
    }
}

/// What is found at a key.
fn found_at(
    alloc: Global,
    key: &str,
    value: &Value,
    cause: SettingCause,
) -> Result<SettingFinding, AllocError> {
    Ok(SettingFinding {
        key: Some(String::from_str(alloc, key)?),
        value: Some(shown(alloc, value)?),
        cause,
    })
}

/// The number at a key, or `otherwise` where the key isn't there.
fn number_or(table: &Table, key: &str, otherwise: i64) -> Option<i64> {
    match table.get(key) {
        None => Some(otherwise),
        Some(value) => value.as_integer(),
    }
}

/// What is found of the tax: that it is not below 1.
fn tax_finding(alloc: Global, table: &Table) -> Result<Option<SettingFinding>, AllocError> {
    let (Some(num), Some(den)) = (
        number_or(table, "tax_num", 3),
        number_or(table, "tax_den", 4),
    ) else {
        return Ok(None);
    };
    if num < den {
        return Ok(None);
    }
    Ok(Some(SettingFinding {
        key: Some(String::from_str(alloc, "tax_num")?),
        value: Some(format!(in alloc; "{num}")?),
        cause: SettingCause::TaxNotBelow(den),
    }))
}

/// All that is found of a table.
fn findings_in(alloc: Global, table: &Table) -> Result<Vec<SettingFinding>, AllocError> {
    let mut findings = Vec::new(alloc);
    for (key, value) in table.iter() {
        if let Some(cause) = cause_of(key.as_str(), value) {
            findings.push(found_at(alloc, key.as_str(), value, cause)?)?;
        }
    }
    if let Some(finding) = tax_finding(alloc, table)? {
        findings.push(finding)?;
    }
    if findings.is_empty() {
        findings.push(SettingFinding::of_document(SettingCause::Other))?;
    }
    Ok(findings)
}

/// One finding alone.
fn alone(alloc: Global, finding: SettingFinding) -> Result<Vec<SettingFinding>, AllocError> {
    let mut findings = Vec::new(alloc);
    findings.push(finding)?;
    Ok(findings)
}

/// For what a document is refused.
fn findings_of(alloc: Global, bytes: &[u8]) -> Result<Vec<SettingFinding>, AllocError> {
    match toml::table_from_slice(alloc, bytes) {
        Ok(table) => findings_in(alloc, &table),
        Err(error) => alone(alloc, not_toml(alloc, bytes, error)?),
    }
}

/// A verdict that refuses a document for these.
fn refused(findings: Vec<SettingFinding>) -> SettingsVerdict
    ensures { result.is_accepted ≡ false }
{
    SettingsVerdict {
        is_accepted: false,
        findings,
    }
}

/// Tells whether the host accepts the bytes of a document as settings, and if not, for which keys and values. A document of
/// more than 65536 bytes is refused unread.
///
/// # Errors
/// Where a growth of memory is refused, in the host's own look at the bytes too.
pub fn explain_settings(alloc: Global, bytes: &[u8]) -> Result<SettingsVerdict, AllocError>
    // What is accepted spells settings, and what isn't spells none, but where it is too long to be looked at.
    ensures accepted { IfOk result (λ verdict. verdict.is_accepted ≡ true → SpellsSome bytes.now) }
    ensures refused { IfOk result (λ verdict. verdict.is_accepted ≡ false
        → length bytes.now ≤ 65536 → SpellsNone bytes.now) }
{
    if bytes.len() > MOST_SETTINGS_BYTES {
        let finding = SettingFinding::of_document(SettingCause::TooLong);
        return Ok(refused(alone(alloc, finding)?));
    }
    match answer_of(alloc, bytes) {
        Answer::Memory => Err(AllocError),
        Answer::Refused => Ok(refused(findings_of(alloc, bytes)?)),
        Answer::Accepted => Ok(SettingsVerdict {
            is_accepted: true,
            findings: Vec::new(alloc),
        }),
    }
}

/// Writes what stands at which key.
fn write_at<W: fmt::Write>(f: &mut fmt::Formatter<W>, finding: &SettingFinding) -> fmt::Result {
    match (&finding.key, &finding.value) {
        (Some(key), Some(value)) => write!(f, "{key} is {value}, and "),
        _ => Ok(()),
    }
}

impl fmt::Display for SettingFinding {
    fn fmt<W: fmt::Write>(&self, f: &mut fmt::Formatter<W>) -> fmt::Result {
        write_at(f, self)?;
        match &self.cause {
            SettingCause::TooLong => {
                write!(f, "the file has more than {MOST_SETTINGS_BYTES} bytes")
            }
            SettingCause::NotToml(line, column, message) => {
                write!(
                    f,
                    "line {line}, column {column}: this is no TOML: {message}"
                )
            }
            SettingCause::UnknownKey => f.write_str("there is no such key"),
            SettingCause::NotInRange(least, most) => {
                write!(f, "has to be a number from {least} to {most}")
            }
            SettingCause::TaxNotBelow(den) => write!(f, "has to be below tax_den, which is {den}"),
            SettingCause::NoHash => f.write_str("has to be \"fnv64\" or \"constant\""),
            SettingCause::NoPath => f.write_str("has to be a path in quotes, and not an empty one"),
            SettingCause::Other => f.write_str("the host refuses these settings"),
        }
    }
}

impl SettingFinding {
    /// Says what to do about it.
    pub fn advice(&self) -> &'static str {
        match self.cause {
            SettingCause::TooLong => "Leave out comments: all keys fit in a few lines.",
            SettingCause::NotToml(_, _, _) => "Write a line KEY = VALUE for each setting.",
            SettingCause::UnknownKey => {
                "Use the keys that there are: frames, slots, tax_num, tax_den, quantum, hash, swap."
            }
            SettingCause::TaxNotBelow(_) => {
                "Choose a tax below 1; without its keys it is 3 / 4."
            }
            _ => "Change the value, or leave the key out.",
        }
    }
}
