//! The program: words, settings, a script, replies and a status.

ghost use Rattle.std.specs.Io.KnownBytes.{Keeps};
ghost use Rattle.std.specs.Prelude.{◌≡◌, ◌≤◌, ℕ, List, replicate, [], Some, true, is_some, map, option_map, string_bytes, IfErr, IfOk, IfSome, MatchOption};
ghost use Rattle.wh_engine.specs.Draining.{HoldsAmid};
ghost use Rattle.wh_script.specs.RunBy.{IsRunBy, RunsBy};
ghost use Rattle.wh_script.specs.Runs.{Runs};
ghost use Rattle.wh_script.specs.Starting.{IsEmptyDevice};
ghost use Rattle.wh_settings.specs.View.{settings_of};
ghost use Rattle.wh_swap.specs.Written.{HasReadRight, page_faults, page_held};
ghost use Rattle.wasmhost_program.specs.ProgramOutput.{EndsWith, HasServedSo, HoldsOver, IsFaultOfDevice, IsFaultOfSettings, ReadsSettings, RunsAsWords, RunsAsked, RunsScript, RunsSo, RunsSoBy, RunsWith, StopsForOutput, runs_amid};

use crate::arguments::{Arguments, ArgumentsError, read_args};
use crate::errors::{Errors, keep_failure, keep_reason, note};
use crate::fault::{ProgramFault, outcome_of};
use crate::files::{Folder, LateFile, LateInput, SystemFiles, read_at_most};
use crate::swap_file::{Lockable, SwapFile, open_swap_file};
use clap::Error;
use std::alloc::Global;
use std::fs::OpenFile;
use std::io::{ErrorKind, Read, Seek, Write};
use std::process::ExitCode;
use std::rt::{Env, Files};
use std::sync::Wait;
use std::thread::Threads;
use std::{env, io};
use wh_script::{ScriptFault, SessionConfig, Source, run_script};
use wh_settings::{Settings, SettingsError, Workers, read_settings};
use wh_streams::{WatchedRead, WatchedWrite};
use wh_swap::{MemSwap, StreamSwap, SwapDev};

/// The status where the whole script was answered.
pub const ANSWERED: u8 = 0;

/// The status where the program had to stop.
pub const STOPPED: u8 = 1;

/// The status where the command line isn't accepted.
pub const NOT_ACCEPTED: u8 = 2;

/// What the program stops for where it has no memory.
const MEMORY: ProgramFault = ProgramFault::Script(ScriptFault::Memory);

/// How many bytes a file of settings may have.
const MOST_SETTINGS_BYTES: u32 = 65536;

/// The words of the command line.
fn words(rt: &(impl Env + AllocGlobal)) -> io::Result<Vec<String>> {
    Ok(env::args(rt)?.collect(rt.alloc())?)
}

/// The bytes of a file of settings.
///
/// # Errors
/// `Settings` where it can't be opened or read, or has too many; `Memory` where there is none for them.
fn settings_bytes<S: Folder>(
    alloc: Global,
    folder: &S,
    path: &str,
    reason: &mut String,
) -> Result<Vec<u8>, ProgramFault>
    ensures bytes { IfOk result (λ bytes. Keeps (S.known folder.now path.now) (Some bytes.items)) }
    ensures err { IfErr result IsFaultOfSettings }
{
    let read = read_at_most(alloc, folder, path, u64::from(MOST_SETTINGS_BYTES) + 1);
    note(&read, path, reason);
    match read {
        Ok(bytes) if bytes.len() <= MOST_SETTINGS_BYTES as usize => Ok(bytes),
        Err(error) if error.kind() == ErrorKind::OutOfMemory => Err(ProgramFault::Script(
            ScriptFault::Memory,
        )),
        Ok(_) => {
            keep_reason(reason, path, "more than 65536 bytes");
            Err(ProgramFault::Settings)
        }
        Err(_) => Err(ProgramFault::Settings),
    }
}

/// The settings of this file, or those by default.
///
/// # Errors
/// `Settings` where the file can't be read or spells none; `Memory` where there is none for them.
fn settings_of_file<S: Folder>(
    alloc: Global,
    folder: &S,
    path: Option<&str>,
    reason: &mut String,
) -> Result<Settings, ProgramFault>
    ensures settings { IfOk result (λ settings. ReadsSettings (S.known folder.now)
        (option_map (λ p. p.now) path.entry) (settings_of settings)) }
    ensures err { IfErr result IsFaultOfSettings }
    ensures named { IfErr result (λ fault. is_some (option_map (λ p. p.now) path.entry) ≡ true) }
{
    let Some(path) = path else {
        return Ok(Settings::default());
    };
    let bytes = settings_bytes(alloc, folder, path, reason)?;
    match read_settings(alloc, &bytes) {
        Ok(settings) => Ok(settings),
        Err(SettingsError::Memory) => Err(ProgramFault::Script(ScriptFault::Memory)),
        Err(SettingsError::Invalid) => {
            keep_reason(
                reason,
                path,
                "no settings, as `wasmhost_check settings` explains",
            );
            Err(ProgramFault::Settings)
        }
    }
}

/// What came of a command line.
#[derive(Drop)]
pub struct ProgramOutcome<F> {
    /// The status: 0 to 2.
    pub status: u8,
    /// The device to which pages were swapped, where the settings name a file for it.
    pub swap: Option<StreamSwap<F>>,
    /// How the calls of the script were run, where one was begun.
    pub config: Option<SessionConfig>,
}

/// A device over this file. What it held is lost.
fn device_over<F: OpenFile + Read + Write + Seek + Drop>(
    alloc: Global,
    own: &SwapFile<'_, F>,
    slots: u32,
    reason: &mut String,
) -> Result<StreamSwap<F>, ProgramFault>
    ensures held { IfOk result (λ device. page_held device ≡ replicate slots []) }
    ensures faults { IfOk result (λ device. page_faults device ≡ []) }
    ensures err { IfErr result IsFaultOfDevice }
{
    let handle = own.handle();
    note(&handle, own.path(), reason);
    let Ok(file) = handle else {
        return Err(ProgramFault::Swap);
    };
    let Ok(device) = StreamSwap::new(alloc, file, slots) else {
        return Err(ProgramFault::Script(ScriptFault::Memory));
    };
    Ok(device)
}

/// Runs a script with these settings and this number of workers, from the input where it has no path. Pages are swapped
/// to the device, which comes back.
fn run_over<
    E: AllocGlobal + Threads + Wait + Copy + Send + Sync + 'static,
    S: Folder + Source,
    D: SwapDev + Drop + Send + 'static,
    R: Read,
    W: Write,
>(
    rt: &E,
    folder: &S,
    settings: &Settings,
    given: Arguments<'_>,
    device: D,
    input: &mut WatchedRead<R>,
    output: &mut WatchedWrite<W>,
    reason: &mut String,
) -> (Result<(), ScriptFault>, Option<D>, Option<SessionConfig>)
    requires { IsEmptyDevice settings.now.slots (D.held device) }
    ensures amid { let holds = λ (met : List ℕ). RunsScript (runs_amid met) (S.known folder.now) (S.files folder.now)
        (settings_of settings.now) (option_map (λ p. p.now) given.entry.script) (R.remaining input.old.inner)
        (R.remaining input.new.inner) (W.contents output.old.inner) (W.contents output.new.inner) result.0 in
        MatchOption result.1 (holds []) (λ after. HoldsAmid (D.honest after) (D.faults device)
        (D.faults after) holds) }
    ensures config { RunsBy (settings_of settings.now) given.entry.workers.number result.0
        result.1 result.2 }
    ensures output { result.0 ≡ Err ScriptFault.Output → output.new.has_failed ≡ true }
{
    let alloc = rt.alloc();
    let workers = given.workers;
    let Some(path) = given.script else {
        return run_script(*rt, alloc, settings, workers, folder, device, input, output);
    };
    let mut file = WatchedRead::new(LateFile {
        folder,
        path,
        file: None,
    });
    let ended = run_script(
        *rt, alloc, settings, workers, folder, device, &mut file, output,
    );
    if let Some(error) = file.failure()
        && ended.0 == Err(ScriptFault::Script)
    {
        keep_reason(reason, path, error);
    }
    ended
}

/// Runs a script with these settings, in which no file for swap is named. Pages are swapped to memory.
fn run_in_memory<
    E: AllocGlobal + Threads + Wait + Copy + Send + Sync + 'static,
    S: Folder + Source,
    R: Read,
    W: Write,
>(
    rt: &E,
    folder: &S,
    settings: &Settings,
    given: Arguments<'_>,
    input: &mut WatchedRead<R>,
    output: &mut WatchedWrite<W>,
    reason: &mut String,
) -> (Result<(), ScriptFault>, Option<SessionConfig>)
    ensures amid { RunsScript (runs_amid []) (S.known folder.now) (S.files folder.now)
        (settings_of settings.now) (option_map (λ p. p.now) given.entry.script)
        (R.remaining input.old.inner) (R.remaining input.new.inner) (W.contents output.old.inner)
        (W.contents output.new.inner) result.0 }
    ensures config { MatchOption result.1 (result.0 ≡ Err ScriptFault.Memory)
        (IsRunBy (settings_of settings.now) given.entry.workers.number) }
    ensures output { result.0 ≡ Err ScriptFault.Output → output.new.has_failed ≡ true }
{
    let Ok(device) = MemSwap::new(rt.alloc(), settings.slots) else {
        return (Err(ScriptFault::Memory), None);
    };
    let (outcome, _, config) = run_over(rt, folder, settings, given, device, input, output, reason);
    (outcome, config)
}

/// Runs the script of a command line with these settings and its workers. Pages are swapped to this file, over which the
/// device comes back.
fn run_on_file<
    E: Files + AllocGlobal + Threads + Wait + Copy + Send + Sync + 'static,
    S: Folder + Source,
    R: Read,
    W: Write,
>(
    rt: &E,
    folder: &S,
    settings: &Settings,
    given: Arguments<'_>,
    own: &SwapFile<'_, E::File>,
    input: &mut WatchedRead<R>,
    output: &mut WatchedWrite<W>,
    reason: &mut String,
) -> (
    Result<(), ProgramFault>,
    Option<StreamSwap<E::File>>,
    Option<SessionConfig>,
)
where
    E::File: Send + 'static,
    requires { (settings_of settings.now).swap ≡ Some own.now.path.now }
    ensures amid { HoldsOver result.1 (λ met. RunsWith (runs_amid met) (S.known folder.now)
        (S.files folder.now) (settings_of settings.now) (option_map (λ p. p.now) given.entry.script)
        (R.remaining input.old.inner) (R.remaining input.new.inner) (W.contents output.old.inner)
        (W.contents output.new.inner) result.0) }
    ensures config { RunsSo (settings_of settings.now) given.entry.workers.number result.0
        (is_some result.1) result.2 }
    ensures output { StopsForOutput output.new.has_failed result.0 }
{
    match device_over(rt.alloc(), own, settings.slots, reason) {
        Ok(device) => {
            let (outcome, device, config) = run_over(
                rt, folder, settings, given, device, input, output, reason,
            );
            (outcome_of(outcome), device, config)
        }
        Err(fault) => (Err(fault), None, None),
    }
}

/// Runs the script of a command line with these settings and its workers. The device comes back, where the settings name a
/// file for it.
fn run_with<
    E: Files + AllocGlobal + Threads + Wait + Copy + Send + Sync + 'static,
    S: Folder + Source,
    R: Read,
    W: Write,
>(
    rt: &E,
    folder: &S,
    settings: &Settings,
    given: Arguments<'_>,
    input: &mut WatchedRead<R>,
    output: &mut WatchedWrite<W>,
    reason: &mut String,
) -> (
    Result<(), ProgramFault>,
    Option<StreamSwap<E::File>>,
    Option<SessionConfig>,
)
where
    E::File: Lockable + Send + 'static,
    ensures amid { HoldsOver result.1 (λ met. RunsWith (runs_amid met) (S.known folder.now)
        (S.files folder.now) (settings_of settings.now) (option_map (λ p. p.now) given.entry.script)
        (R.remaining input.old.inner) (R.remaining input.new.inner) (W.contents output.old.inner)
        (W.contents output.new.inner) result.0) }
    ensures config { RunsSo (settings_of settings.now) given.entry.workers.number result.0
        (is_some result.1) result.2 }
    ensures output { StopsForOutput output.new.has_failed result.0 }
{
    let Some(path) = &settings.swap else {
        let (outcome, config) = run_in_memory(rt, folder, settings, given, input, output, reason);
        return (outcome_of(outcome), None, config);
    };
    let opened = open_swap_file(rt, path);
    note(&opened, path, reason);
    let Ok(own) = opened else {
        return (Err(ProgramFault::Swap), None, None);
    };
    let ended = run_on_file(rt, folder, settings, given, &own, input, output, reason);
    // That nothing could be taken out of the file has nobody to be told: what was answered stays so.
    let _ = own.empty();
    ended
}

/// Runs the script of a command line with its settings and workers. The device comes back, where the settings name a file
/// for it.
fn run_given<
    E: Files + AllocGlobal + Threads + Wait + Copy + Send + Sync + 'static,
    S: Folder + Source,
    R: Read,
    W: Write,
>(
    rt: &E,
    folder: &S,
    given: Arguments<'_>,
    input: &mut WatchedRead<R>,
    output: &mut WatchedWrite<W>,
    reason: &mut String,
) -> (
    Result<(), ProgramFault>,
    Option<StreamSwap<E::File>>,
    Option<SessionConfig>,
)
where
    E::File: Lockable + Send + 'static,
    ensures amid { HoldsOver result.1 (λ met. RunsAsked (runs_amid met) (S.known folder.now)
        (S.files folder.now) (option_map (λ p. p.now) given.entry.settings)
        (option_map (λ p. p.now) given.entry.script) (R.remaining input.old.inner) (R.remaining input.new.inner)
        (W.contents output.old.inner) (W.contents output.new.inner) result.0) }
    ensures config { RunsSoBy (S.known folder.now) (option_map (λ p. p.now) given.entry.settings)
        given.entry.workers.number result.0 (is_some result.1) result.2 }
    ensures output { StopsForOutput output.new.has_failed result.0 }
{
    match settings_of_file(rt.alloc(), folder, given.settings, reason) {
        Ok(settings) => run_with(rt, folder, &settings, given, input, output, reason),
        Err(fault) => (Err(fault), None, None),
    }
}

/// Says why the program stops: the kind of fault, and after it what is kept of it, which begins with a colon, or
/// nothing. A failed write of that has nobody to be told.
fn stop(errors: &mut impl Write, fault: ProgramFault, reason: &str) -> u8
    ensures { result ≡ 1 }
{
    let _ = writeln!(errors, "wasmhost: {fault}{reason}");
    STOPPED
}

/// Says where threads were refused: the calling thread has done what they should have. A failed write of that has nobody to be
/// told.
fn warn(errors: &mut impl Write, config: Option<SessionConfig>) {
    if let Some(config) = config
        && config.lacked_threads()
    {
        let _ = writeln!(
            errors,
            "wasmhost: threads: refused, so that calls ran in one"
        );
    }
}

/// Answers the script that the words of a command line name, the first of them being the program's. The script comes from
/// the input, or from the file of the folder that the words name, where modules come from too. The replies go to `output`,
/// and why it stops or isn't begun to `errors`.
pub fn answer<
    E: Files + AllocGlobal + Threads + Wait + Copy + Send + Sync + 'static,
    S: Folder + Source,
    R: Read,
    W: Write,
>(
    rt: &E,
    folder: &S,
    words: &[String],
    input: &mut WatchedRead<R>,
    output: &mut WatchedWrite<W>,
    errors: &mut impl Write,
) -> ProgramOutcome<E::File>
where
    E::File: Lockable + Send + 'static,
    ensures status { result.status ≤ 2 }
    // Which script was answered, with which settings, and how much of it, by the status: so it is where pages are swapped to
    // memory, and over a file where that has given what was written to it, and no call of it failed.
    ensures ends { HasServedSo result.swap → EndsWith Runs (S.known folder.now) (S.files folder.now)
        (map string_bytes words.now) (R.remaining input.old.inner) (R.remaining input.new.inner)
        (W.contents output.old.inner) (W.contents output.new.inner) result.status }
    // Where calls of it did fail, so it is still, except that a call may be blocked on such a fault until it is
    // retried.
    ensures amid { HoldsOver result.swap (λ met. EndsWith (runs_amid met) (S.known folder.now)
        (S.files folder.now) (map string_bytes words.now) (R.remaining input.old.inner)
        (R.remaining input.new.inner) (W.contents output.old.inner) (W.contents output.new.inner) result.status) }
    // Calls were run by as many workers as the words say, in turns of the settings and with their hash, and pages were swapped
    // to a file where these name one; so it is at 0, and wherever a script was begun.
    ensures config { RunsAsWords (S.known folder.now) (map string_bytes words.now) result.status
        (is_some result.swap) result.config }
{
    let mut reason = String::new(rt.alloc());
    let (outcome, swap, config) = match read_args(rt.alloc(), words) {
        Ok(given) => run_given(rt, folder, given, input, output, &mut reason),
        Err(ArgumentsError::Memory) => (Err(ProgramFault::Script(ScriptFault::Memory)), None, None),
        Err(ArgumentsError::Line(error)) => {
            let _ = write!(errors, "{error}");
            return ProgramOutcome {
                status: NOT_ACCEPTED,
                swap: None,
                config: None,
            };
        }
    };
    let status = match outcome {
        Ok(()) => ANSWERED,
        Err(fault) => {
            keep_failure(&mut reason, fault, input.failure(), output.failure());
            stop(errors, fault, &reason)
        }
    };
    warn(errors, config);
    ProgramOutcome {
        status,
        swap,
        config,
    }
}

/// Writes help or the version to standard output, and gives the status.
fn show<E: Print + AllocGlobal>(rt: &E, errors: &mut impl Write, shown: &Error) -> u8 {
    let Err(error) = print!(rt; "{shown}") else {
        return ANSWERED;
    };
    let mut reason = String::new(rt.alloc());
    keep_reason(&mut reason, "standard output", error);
    stop(errors, ProgramFault::Script(ScriptFault::Output), &reason)
}

/// Writes help or the version to standard output where these words ask for it, and gives the status then; and where there is no
/// memory to read them.
fn show_asked<E: Print + AllocGlobal>(
    rt: &E,
    errors: &mut impl Write,
    words: &[String],
) -> Option<u8> {
    match read_args(rt.alloc(), words) {
        Err(ArgumentsError::Line(shown)) if !shown.use_stderr() => Some(show(rt, errors, &shown)),
        Err(ArgumentsError::Memory) => Some(stop(errors, MEMORY, "")),
        _ => None,
    }
}

/// Runs the program, with the words, the streams and the files of this process. Where the words ask for help or the version,
/// that is written to standard output, and nothing else is done.
pub fn run<
    E: Env
        + Files
        + Input
        + Print
        + Eprint
        + AllocGlobal
        + Threads
        + Wait
        + Copy
        + Send
        + Sync
        + 'static,
>(rt: E) -> ExitCode
where
    E::File: Lockable + Send + 'static,
{
    let mut errors = Errors { rt: &rt };
    let words = match words(&rt) {
        Ok(words) => words,
        Err(error) if error.kind() == ErrorKind::OutOfMemory => {
            return ExitCode::from(stop(&mut errors, MEMORY, ""));
        }
        Err(error) => {
            let _ = writeln!(errors, "error: the command line: {error}");
            return ExitCode::from(NOT_ACCEPTED);
        }
    };
    if let Some(status) = show_asked(&rt, &mut errors, &words) {
        return ExitCode::from(status);
    }
    let folder = SystemFiles { rt: &rt };
    let mut input = WatchedRead::new(LateInput {
        rt: &rt,
        reader: None,
    });
    let mut output = WatchedWrite::new(io::writer(&rt));
    let outcome = answer(&rt, &folder, &words, &mut input, &mut output, &mut errors);
    ExitCode::from(outcome.status)
}
