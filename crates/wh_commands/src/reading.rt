//! What a line asks for.

ghost use Rattle.std.specs.Prelude.{◌≡◌, ◌≢◌, ℕ, ℤ, List, [], ◌∷◌, codes, ◌⊎◌, IfOk, OnErr, IfErr};
ghost use Rattle.std.specs.Bool.{MatchBool};
ghost use Rattle.std.specs.List.{AllZip};
ghost use Rattle.wh_model.specs.declared.ValType.TheVariants.{I64};
ghost use Rattle.wh_script_model.specs.Lines.{IsName, IsWord};
ghost use Rattle.wh_script_model.specs.Hex.{IsHex};
ghost use Rattle.wh_host_model.specs.Owners as owners;
ghost use Rattle.wh_script_model.specs.Words.{IsNumber, IsCount, IsBits};
ghost use Rattle.wh_script_model.specs.Commands.{AreParams, Follow, AsksCommand};
ghost use Rattle.wh_script_model.specs.Commands as lines;
ghost use Rattle.wh_commands.specs.WordsLeft.{words_left, IsHexWord};
ghost use Rattle.wh_commands.specs.ParsedCommands.{Finds, FindsAsked, IsAskedBy, Refuses, asked_in, command_of, invoke_of};
ghost use Rattle.wh_params.specs.View.{view_params};

use crate::command::{CallAction, Command, InvokeCommand, ParsedLine};
use crate::error::ParseError;
use crate::numbers::{i64_bits_in, number_in};
use crate::words::{Words, words_in};
use std::alloc::Global;
use wh_params::{Params, Quota};

/// `NAME HEX`
fn keep(alloc: Global, words: Words<'_>) -> Result<Command<'_>, ParseError>
    ensures ok { IfOk result (λ command. IsAskedBy (codes "module")
        (words_left words.entry) (command_of command)) }
    ensures none { IfErr result (Refuses ((name hex : List ℕ) × IsName name × IsHexWord hex
        × (words_left words.entry ≡ name ∷ hex ∷ []))) }
{
    let mut words = words;
    let name = words.next_name()?;
    let hex = words.next_hex()?;
    words.end()?;
    let Ok(bytes) = hex::decode(alloc, hex) else {
        return Err(ParseError::Memory);
    };
    Ok(Command::Module { name, bytes })
}

/// `NAME PATH`
fn load(words: Words<'_>) -> Result<Command<'_>, ParseError>
    ensures ok { IfOk result (λ command. IsAskedBy (codes "load")
        (words_left words.entry) (command_of command)) }
    ensures err { IfErr result (λ e. e ≡ ParseError.Syntax) }
    ensures none { OnErr result ((name path : List ℕ) → IsName name → IsWord path
        → words_left words.entry ≢ name ∷ path ∷ []) }
{
    let mut words = words;
    let name = words.next_name()?;
    let path = words.next_text()?;
    words.end()?;
    Ok(Command::Load { name, path })
}

/// `INST N`
fn refuel(words: Words<'_>) -> Result<Command<'_>, ParseError>
    ensures ok { IfOk result (λ command. IsAskedBy (codes "refuel")
        (words_left words.entry) (command_of command)) }
    ensures err { IfErr result (λ e. e ≡ ParseError.Syntax) }
    ensures none { OnErr result ((inst word : List ℕ) (n : ℕ) → IsName inst → IsCount word n
        → words_left words.entry ≢ inst ∷ word ∷ []) }
{
    let mut words = words;
    let inst = words.next_name()?;
    let fuel = words.next_count()?;
    words.end()?;
    Ok(Command::Act {
        inst,
        action: CallAction::Refuel { fuel },
    })
}

/// `INST`
fn inst_alone(words: Words<'_>) -> Result<&str, ParseError>
    ensures ok { IfOk result (λ inst. (words_left words.entry ≡ inst.now ∷ []) × IsName inst.now) }
    ensures err { IfErr result (λ e. e ≡ ParseError.Syntax) }
    ensures none { OnErr result ((inst : List ℕ) → IsName inst
        → words_left words.entry ≢ inst ∷ []) }
{
    let mut words = words;
    let inst = words.next_name()?;
    words.end()?;
    Ok(inst)
}

/// `[INPUT ..]`
fn inputs(alloc: Global, words: Words<'_>) -> Result<Vec<u64>, ParseError>
    ensures ok { IfOk result (λ inputs. AllZip (IsBits I64) (words_left words.entry) inputs.items) }
    ensures none { IfErr result (Refuses ((inputs : List ℕ)
        × AllZip (IsBits I64) (words_left words.entry) inputs)) }
{
    let mut words = words;
    let mut inputs = Vec::new(alloc);
    while let Some(word) = words.next() {
        let Some(bits) = i64_bits_in(word) else {
            return Err(ParseError::Syntax);
        };
        if inputs.push(bits).is_err() {
            return Err(ParseError::Memory);
        }
    }
    Ok(inputs)
}

/// `[ARG ..]`
fn args(alloc: Global, words: Words<'_>) -> Result<Vec<i128>, ParseError>
    ensures ok { IfOk result (λ args. AllZip IsNumber (words_left words.entry) args.items) }
    ensures none { IfErr result (Refuses ((args : List ℤ)
        × AllZip IsNumber (words_left words.entry) args)) }
{
    let mut words = words;
    let mut args = Vec::new(alloc);
    while let Some(word) = words.next() {
        let Some(number) = number_in(word) else {
            return Err(ParseError::Syntax);
        };
        if args.push(number).is_err() {
            return Err(ParseError::Memory);
        }
    }
    Ok(args)
}

/// `SHARES MIN MAX FUEL BASE SALT [INPUT ..]`
fn given(alloc: Global, words: Words<'_>) -> Result<Params, ParseError>
    ensures ok { IfOk result (λ given. AreParams (words_left words.entry) (view_params given)) }
    ensures none { IfErr result (Refuses ((params : owners.Params)
        × AreParams (words_left words.entry) params)) }
{
    let mut words = words;
    let shares = words.next_count()?;
    let min = words.next_count()?;
    let max = words.next_count()?;
    let fuel = words.next_count()?;
    let base = words.next_i32_bits()?;
    let salt = words.next_i64_bits()?;
    let inputs = inputs(alloc, words)?;
    let quota = Quota {
        shares,
        min_frames: min,
        max_frames: max,
    };
    Ok(Params {
        quota,
        fuel,
        base,
        salt,
        inputs,
    })
}

/// `INST MODULE SHARES MIN MAX FUEL BASE SALT [INPUT ..]`
fn admit(alloc: Global, words: Words<'_>) -> Result<Command<'_>, ParseError>
    ensures ok { IfOk result (λ command. IsAskedBy (codes "admit")
        (words_left words.entry) (command_of command)) }
    ensures none { IfErr result (Refuses ((inst of : List ℕ) × (params : owners.Params)
        × Follow (lines.admit inst of params) (words_left words.entry))) }
{
    let mut words = words;
    let inst = words.next_name()?;
    let module = words.next_name()?;
    let given = given(alloc, words)?;
    Ok(Command::Admit {
        inst,
        module,
        given,
    })
}

/// `INST EXPORT FUEL [ARG ..]`
fn invoke(alloc: Global, words: Words<'_>) -> Result<InvokeCommand<'_>, ParseError>
    ensures ok { IfOk result (λ call. IsAskedBy (codes "invoke")
        (words_left words.entry) (invoke_of call)) }
    ensures none { IfErr result (Refuses ((inst export : List ℕ) × (fuel : ℕ) × (args : List ℤ)
        × Follow (lines.invoke inst export fuel args) (words_left words.entry))) }
{
    let mut words = words;
    let inst = words.next_name()?;
    let export = words.next_text()?;
    let fuel = words.next_count()?;
    let args = args(alloc, words)?;
    Ok(InvokeCommand {
        inst,
        export,
        fuel,
        args,
    })
}

/// `INST`
fn cancel(words: Words<'_>) -> Result<Command<'_>, ParseError>
    ensures ok { IfOk result (λ command. IsAskedBy (codes "cancel")
        (words_left words.entry) (command_of command)) }
    ensures err { IfErr result (λ e. e ≡ ParseError.Syntax) }
    ensures none { OnErr result ((inst : List ℕ) → IsName inst
        → words_left words.entry ≢ inst ∷ []) }
{
    let inst = inst_alone(words)?;
    Ok(Command::Act {
        inst,
        action: CallAction::Cancel,
    })
}

/// `INST`
fn retry(words: Words<'_>) -> Result<Command<'_>, ParseError>
    ensures ok { IfOk result (λ command. IsAskedBy (codes "retry")
        (words_left words.entry) (command_of command)) }
    ensures err { IfErr result (λ e. e ≡ ParseError.Syntax) }
    ensures none { OnErr result ((inst : List ℕ) → IsName inst
        → words_left words.entry ≢ inst ∷ []) }
{
    let inst = inst_alone(words)?;
    Ok(Command::Act {
        inst,
        action: CallAction::Retry,
    })
}

/// `INST`
fn release(words: Words<'_>) -> Result<Command<'_>, ParseError>
    ensures ok { IfOk result (λ command. IsAskedBy (codes "release")
        (words_left words.entry) (command_of command)) }
    ensures err { IfErr result (λ e. e ≡ ParseError.Syntax) }
    ensures none { OnErr result ((inst : List ℕ) → IsName inst
        → words_left words.entry ≢ inst ∷ []) }
{
    let inst = inst_alone(words)?;
    Ok(Command::Release { inst })
}

/// Nothing after the verb.
fn drain(words: Words<'_>) -> Result<Command<'_>, ParseError>
    ensures ok { IfOk result (λ command. IsAskedBy (codes "drain")
        (words_left words.entry) (command_of command)) }
    ensures err { IfErr result (λ e. e ≡ ParseError.Syntax) }
    ensures none { OnErr result (words_left words.entry ≢ []) }
{
    words.end()?;
    Ok(Command::Drain)
}

/// Nothing after the verb.
fn scan(words: Words<'_>) -> Result<Command<'_>, ParseError>
    ensures ok { IfOk result (λ command. IsAskedBy (codes "scan")
        (words_left words.entry) (command_of command)) }
    ensures err { IfErr result (λ e. e ≡ ParseError.Syntax) }
    ensures none { OnErr result (words_left words.entry ≢ []) }
{
    words.end()?;
    Ok(Command::Scan)
}

/// Nothing after the verb.
fn report(words: Words<'_>) -> Result<Command<'_>, ParseError>
    ensures ok { IfOk result (λ command. IsAskedBy (codes "report")
        (words_left words.entry) (command_of command)) }
    ensures err { IfErr result (λ e. e ≡ ParseError.Syntax) }
    ensures none { OnErr result (words_left words.entry ≢ []) }
{
    words.end()?;
    Ok(Command::Report)
}

/// The command of this verb, which isn't `invoke`, and of the words after it.
fn command_by<'a>(alloc: Global, verb: &[u8], words: Words<'a>) -> Result<Command<'a>, ParseError>
    requires { verb.now ≢ codes "invoke" }
    ensures found { IfOk result (λ command. IsAskedBy verb.now (words_left words.entry)
        (command_of command)) }
    ensures only { (asked : lines.Command) → IsAskedBy verb.now (words_left words.entry) asked
        → Finds command_of result asked }
    ensures err { IfErr result (λ e. (e ≡ ParseError.Syntax) ⊎ (e ≡ ParseError.Memory)) }
{
    if is_same(verb, b"module") {
        return keep(alloc, words);
    }
    if is_same(verb, b"load") {
        return load(words);
    }
    if is_same(verb, b"admit") {
        return admit(alloc, words);
    }
    if is_same(verb, b"drain") {
        return drain(words);
    }
    if is_same(verb, b"refuel") {
        return refuel(words);
    }
    if is_same(verb, b"cancel") {
        return cancel(words);
    }
    if is_same(verb, b"retry") {
        return retry(words);
    }
    if is_same(verb, b"scan") {
        return scan(words);
    }
    if is_same(verb, b"report") {
        return report(words);
    }
    if is_same(verb, b"release") {
        return release(words);
    }
    Err(ParseError::Syntax)
}

/// Parses a line without its newline.
///
/// # Errors
/// `Syntax` if the line isn't of the shape of a command, or has a byte above 127; `Memory` if the allocation for its
/// bytes or numbers fails.
pub fn parse(alloc: Global, line: &[u8]) -> Result<ParsedLine<'_>, ParseError>
    // The line asks for what is found.
    ensures found { IfOk result (λ found. AsksCommand line.now (asked_in found)) }
    // What the line asks for is found, or there was no memory.
    ensures only { (asked : lines.Command) → AsksCommand line.now asked → FindsAsked result asked }
    ensures err { IfErr result (λ e. (e ≡ ParseError.Syntax) ⊎ (e ≡ ParseError.Memory)) }
{
    let mut words = words_in(line);
    let verb = words.next_piece()?;
    if is_same(verb, b"invoke") {
        return Ok(ParsedLine::Invoke(invoke(alloc, words)?));
    }
    Ok(ParsedLine::Command(command_by(alloc, verb, words)?))
}

/// Whether two words are the same.
fn is_same(word: &[u8], other: &[u8]) -> bool
    ensures { MatchBool result (word.now ≡ other.now) (word.now ≢ other.now) }
{
    word == other
}
