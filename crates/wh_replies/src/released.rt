//! The reply to a release, with the output of the instance.

ghost use Rattle.std.specs.Prelude.{◌≡◌, ◌++◌, OnOk, IfOk, string_bytes};
ghost use Rattle.wh_script_model.specs.Texts.{output_text, hex_text, reply_text, release_ok};

use std::alloc::{AllocError, Global};

/// Appends `release INST ok HEX` to a text: the output in hexadecimal, lower case, or `-` where it is empty.
///
/// # Errors
/// A growth of memory was refused; a beginning of the reply may have been appended.
pub fn write_released(
    alloc: Global,
    text: &mut String,
    inst: &str,
    output: &[u8],
) -> Result<(), AllocError>
    ensures { OnOk result (string_bytes text.new
        ≡ string_bytes text.old ++ reply_text (release_ok inst.now output.now)) }
{
    let digits = digits_of(alloc, output)?;
    let digits = digits.as_str();
    writeln!(text, "release {inst} ok {digits}")
}

/// The bytes in hexadecimal, lower case, or `-` where there are none.
fn digits_of(alloc: Global, output: &[u8]) -> Result<String, AllocError>
    ensures { IfOk result (λ text. string_bytes text ≡ output_text output.now) }
{
    if output.is_empty() {
        return String::from_str(alloc, "-");
    }
    in_hex(alloc, output)
}

/// The bytes in hexadecimal, lower case.
fn in_hex(alloc: Global, output: &[u8]) -> Result<String, AllocError>
    ensures { IfOk result (λ text. string_bytes text ≡ hex_text output.now) }
{
    hex::encode(alloc, output)
}
