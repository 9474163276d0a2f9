//! A sentence for each code.

ghost use Rattle.std.specs.Prelude.{◌≡◌, MatchOption, length};
ghost use Rattle.wolqedir.specs.CodeTexts.{IsLibraryCode, most_number};

// The library's own codes: 0 to 9.
const OWN: [&str; 10] = [
    "it was done",
    "no host is in the handle",
    "memory was refused",
    "the handle holds a host already",
    "the tax isn't a fraction below one with a denominator of 1 to 1000",
    "the name isn't UTF-8",
    "no such instance, call, module, export or code",
    "frames and slots are 2^32 together or more",
    "an instance of the module is there",
    "the memory has fewer bytes",
];

// Why bytes are no module: D1 to D13.
const DECODE: [&str; 13] = [
    "a byte differs from 00 61 73 6D",
    "a byte differs from 01 00 00 00",
    "the input ends where a byte must stand",
    "a section's id is repeated, or doesn't rise",
    "contents end before the declared end, or would pass it",
    "the last byte that a number may have continues, or has wrong unused bits",
    "a name isn't UTF-8",
    "a byte that stands for nothing where it stands; opcodes of later versions are such, but for sign extension",
    "a floating-point type or opcode",
    "an import of a table, a memory or a mutable global",
    "a limit is passed",
    "there aren't as many code entries as functions",
    "memory was refused",
];

// Why a module isn't valid: V1 to V11.
const VALID: [&str; 11] = [
    "an operand, result, local, label of a br_table or constant has another type than it must have",
    "a type, function, table, memory, global, local or label that isn't there",
    "an access is aligned to more bytes than it has",
    "an operand is missing, or left at an else or an end",
    "a constant expression isn't one constant, or one global that it may read",
    "two exports of one name",
    "the start function takes or gives something",
    "sizes out of their bounds, two tables or memories, two results, more than 256 parameters and locals",
    "more than 256 operands",
    "a global that keeps its first value is written",
    "memory was refused",
];

// Why it isn't linked: L1 to L3.
const LINK: [&str; 3] = [
    "the host has nothing of this name",
    "the host has it with another kind or type",
    "memory was refused",
];

// Why it isn't kept: M1, M2.
const MODULE: [&str; 2] = ["1024 modules are kept", "memory was refused"];

// Why an instance isn't admitted: A1 to A9.
const ADMIT: [&str; 9] = [
    "no module has this number",
    "SHARES is 0, or above 1000000",
    "MIN is below 2, MAX below MIN, or MAX above 65536",
    "the minima of all instances, this one's with them, are more than there are frames",
    "the sums of MAX - MIN + 1 are more than there are slots",
    "4096 instances are there",
    "the module asks for more pages at first than MAX / 16",
    "a data or element segment lies outside its memory or table",
    "memory was refused",
];

// Why a host doesn't do what is asked of it: H1 to H8.
const ASK: [&str; 8] = [
    "the instance was released",
    "it exports no function of its own by this name",
    "the arguments aren't as many as the function takes, or not in the range of their types",
    "1024 of its calls are open, the start not counted",
    "its start has trapped or was cancelled",
    "it has had 65536 calls, its start among them",
    "memory was refused",
    "no call of it is open; for retry, none that is blocked on a failed device",
];

// Why a call has trapped: T1 to T10.
const TRAP: [&str; 10] = [
    "unreachable",
    "a division by zero",
    "a quotient that doesn't fit",
    "an access outside memory",
    "a place outside the table",
    "no function at the place of a table",
    "the function there has another type",
    "emit of more than 4096 bytes",
    "output beyond 65536 bytes",
    "calls nested deeper than 128",
];

// Why it is blocked on the swap device: S1 to S3.
const SWAP: [&str; 3] = [
    "a page couldn't be read",
    "a page couldn't be written, as where there is no room",
    "other bytes were read than were written",
];

// Why an instance isn't copied: F1 to F4.
const FORK: [&str; 4] = [
    "a call of it is open",
    "its start has failed",
    "the copy's memory could not grow just as far, or has more pages than MAX",
    "a page of it is in swap, or on its way",
];

// The sentences of a family, by its number.
fn sentences(family: u32) -> &'static [&'static str]
    ensures { length result.now ≡ most_number family }
{
    match family {
        1 => &DECODE,
        2 => &VALID,
        3 => &LINK,
        4 => &MODULE,
        5 => &ADMIT,
        6 => &ASK,
        7 => &TRAP,
        8 => &SWAP,
        9 => &FORK,
        _ => &[],
    }
}

/// Returns the sentence for a code of the library; `None` for any other number.
pub fn sentence(code: u32) -> Option<&'static str>
    ensures { MatchOption result (¬ IsLibraryCode code) (λ _. IsLibraryCode code) }
{
    if code < 10 {
        return Some(OWN[code as usize]);
    }
    let number = (code % 256) as usize;
    if number == 0 {
        return None;
    }
    match sentences(code / 256).get(number - 1) {
        Some(sentence) => Some(*sentence),
        None => None,
    }
}
