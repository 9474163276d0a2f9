//! Verdicts in sentences.

use crate::module::{FaultCode, ModuleVerdict, Name};
use crate::script::ScriptVerdict;
use crate::settings::SettingsVerdict;
use std::io;
use std::io::Write;

/// Writes that a file is accepted.
fn write_accepted<W: Write>(file: &str, output: &mut W) -> io::Result<()> {
    writeln!(output, "{file}: accepted")
}

/// Writes the verdict on the module of a file.
///
/// # Errors
/// Where it can't be written.
pub fn write_module<W: Write>(
    file: &str,
    verdict: &ModuleVerdict,
    output: &mut W,
) -> io::Result<()> {
    let Some(refusal) = &verdict.refusal else {
        return write_accepted(file, output);
    };
    let error = refusal.error;
    writeln!(
        output,
        "{file}: refused, {} {}",
        FaultCode(error),
        Name(error)
    )?;
    writeln!(output, "What is wrong: {refusal}")?;
    writeln!(output, "Where: {}", refusal.place)?;
    if let Some(name) = &refusal.function_name {
        writeln!(output, "The function's name: {name:?}")?;
    }
    writeln!(output, "What to do: {}", refusal.advice())
}

/// Writes the verdict on the settings of a file.
///
/// # Errors
/// Where it can't be written.
pub fn write_settings<W: Write>(
    file: &str,
    verdict: &SettingsVerdict,
    output: &mut W,
) -> io::Result<()> {
    if verdict.is_accepted {
        return write_accepted(file, output);
    }
    writeln!(output, "{file}: refused")?;
    for finding in &verdict.findings {
        writeln!(output, "What is wrong: {finding}")?;
        writeln!(output, "What to do: {}", finding.advice())?;
    }
    Ok(())
}

/// Writes the verdict on the script of a file.
///
/// # Errors
/// Where it can't be written.
pub fn write_script<W: Write>(
    file: &str,
    verdict: &ScriptVerdict,
    output: &mut W,
) -> io::Result<()> {
    if verdict.is_accepted() {
        return write_accepted(file, output);
    }
    writeln!(output, "{file}: refused")?;
    for finding in &verdict.findings {
        writeln!(output, "Line {}: {}", finding.line, finding.cause)?;
        writeln!(output, "What to do: {}", finding.cause.advice())?;
    }
    Ok(())
}
