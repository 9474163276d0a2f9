//! Verdicts as JSON, one object each.

use crate::limit::Limit;
use crate::module::{FaultCode, ModuleVerdict, Name, Refusal};
use crate::script::{LineFinding, ScriptVerdict};
use crate::settings::{SettingFinding, SettingsVerdict};
use serde::Serialize;
use std::alloc::{AllocError, Global};

/// Where a fault lies. What can't be said is null.
#[derive(Drop, Serialize)]
struct PlaceObject<'a> {
    section: Option<&'static str>,
    entry: Option<u32>,
    function: Option<u32>,
    function_name: Option<&'a str>,
    instruction: Option<u32>,
    opcode: Option<&'static str>,
    offset: Option<usize>,
}

/// A limit, and how many there may be, where that is a number.
#[derive(Drop, Serialize)]
struct LimitObject {
    name: &'static str,
    most: Option<usize>,
}

/// Why a module is refused. The limit is null where none is passed.
#[derive(Drop, Serialize)]
struct RefusalObject<'a> {
    fault: String,
    name: String,
    place: PlaceObject<'a>,
    limit: Option<LimitObject>,
    message: String,
    advice: &'static str,
}

/// What is said of a module. Where it is accepted the refusal is null.
#[derive(Drop, Serialize)]
struct ModuleObject<'a> {
    file: &'a str,
    kind: &'static str,
    accepted: bool,
    refusal: Option<RefusalObject<'a>>,
}

/// One thing for which settings are refused.
#[derive(Drop, Serialize)]
struct SettingObject<'a> {
    key: Option<&'a str>,
    value: Option<&'a str>,
    message: String,
    advice: &'static str,
}

/// What is said of settings.
#[derive(Drop, Serialize)]
struct SettingsObject<'a> {
    file: &'a str,
    kind: &'static str,
    accepted: bool,
    findings: Vec<SettingObject<'a>>,
}

/// A line that is no command.
#[derive(Drop, Serialize)]
struct LineObject {
    line: u64,
    word: Option<usize>,
    message: String,
    advice: &'static str,
}

/// What is said of a script.
#[derive(Drop, Serialize)]
struct ScriptObject<'a> {
    file: &'a str,
    kind: &'static str,
    accepted: bool,
    findings: Vec<LineObject>,
}

/// An object as text. Of these objects none fails to be written, but out of memory.
fn text_of<T: Serialize>(alloc: Global, object: &T) -> Result<String, AllocError> {
    serde_json::to_string(alloc, object).map_err(|_| AllocError)
}

/// Where a fault lies, as an object.
fn place_object(refusal: &Refusal) -> PlaceObject<'_> {
    let place = refusal.place;
    PlaceObject {
        section: place.section.map(|section| section.name()),
        entry: place.entry,
        function: place.function,
        function_name: refusal.function_name.as_deref(),
        instruction: place.instruction,
        opcode: place.opcode,
        offset: place.offset,
    }
}

/// The limit that a module passes, as an object.
fn limit_object(limit: Limit) -> LimitObject {
    LimitObject {
        name: limit.name(),
        most: limit.most(),
    }
}

/// Why a module is refused, as an object.
fn refusal_object(alloc: Global, refusal: &Refusal) -> Result<RefusalObject<'_>, AllocError> {
    Ok(RefusalObject {
        fault: format!(in alloc; "{}", FaultCode(refusal.error))?,
        name: format!(in alloc; "{}", Name(refusal.error))?,
        place: place_object(refusal),
        limit: refusal.limit().map(limit_object),
        message: format!(in alloc; "{refusal}")?,
        advice: refusal.advice(),
    })
}

/// Writes the verdict on the module of a file as an object.
///
/// # Errors
/// Where a growth of memory is refused.
pub fn module_json(
    alloc: Global,
    file: &str,
    verdict: &ModuleVerdict,
) -> Result<String, AllocError> {
    let refusal = match &verdict.refusal {
        None => None,
        Some(refusal) => Some(refusal_object(alloc, refusal)?),
    };
    let object = ModuleObject {
        file,
        kind: "module",
        accepted: refusal.is_none(),
        refusal,
    };
    text_of(alloc, &object)
}

/// One thing for which settings are refused, as an object.
fn setting_object(
    alloc: Global,
    finding: &SettingFinding,
) -> Result<SettingObject<'_>, AllocError> {
    Ok(SettingObject {
        key: finding.key.as_deref(),
        value: finding.value.as_deref(),
        message: format!(in alloc; "{finding}")?,
        advice: finding.advice(),
    })
}

/// Writes the verdict on the settings of a file as an object.
///
/// # Errors
/// Where a growth of memory is refused.
pub fn settings_json(
    alloc: Global,
    file: &str,
    verdict: &SettingsVerdict,
) -> Result<String, AllocError> {
    let mut findings = Vec::new(alloc);
    for finding in &verdict.findings {
        findings.push(setting_object(alloc, finding)?)?;
    }
    let object = SettingsObject {
        file,
        kind: "settings",
        accepted: verdict.is_accepted,
        findings,
    };
    text_of(alloc, &object)
}

/// A line that is no command, as an object.
fn line_object(alloc: Global, finding: &LineFinding) -> Result<LineObject, AllocError> {
    Ok(LineObject {
        line: finding.line,
        word: finding.cause.word(),
        message: format!(in alloc; "{}", finding.cause)?,
        advice: finding.cause.advice(),
    })
}

/// Writes the verdict on the script of a file as an object.
///
/// # Errors
/// Where a growth of memory is refused.
pub fn script_json(
    alloc: Global,
    file: &str,
    verdict: &ScriptVerdict,
) -> Result<String, AllocError> {
    let mut findings = Vec::new(alloc);
    for finding in &verdict.findings {
        findings.push(line_object(alloc, finding)?)?;
    }
    let object = ScriptObject {
        file,
        kind: "script",
        accepted: verdict.is_accepted(),
        findings,
    };
    text_of(alloc, &object)
}
