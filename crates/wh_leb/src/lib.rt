//! Integers of the binary format, LEB128 (section 5.2.2 of the standard): a number and the place after it, or the fault
//! at its byte. Numbers longer than they have to be are numbers too, as long as they have no more bytes than their type
//! allows and the last one's unused bits are right. Nothing here takes memory.
#![tactic(auto)]

ghost use Rattle.std.specs.Prelude.{◌≡◌, ◌<◌, ◌≤◌, ◌+◌, ◌-◌, ◌^◌, ◌≤ℤ◌, ◌<ℤ◌, pos, neg_ℤ, length, drop, IfOk, IfErr, Err};
ghost use Rattle.wh_model.specs.Format.Leb.{u32, s32, s64};
ghost use Rattle.wh_leb.specs.Reading.{unsigned_of, signed_of, u32_at, s32_at, s64_at, IsFound, Broken, Complete};

use wh_model::{DecodeError, FaultKind};

/// Returns a fault, as the result of reading.
pub fn fault<T>(kind: FaultKind, offset: usize) -> Result<T, DecodeError>
    ensures { result ≡ Err (record { kind = kind; offset = offset }) }
{
    Err(DecodeError { kind, offset })
}

fn unsigned(bytes: &[u8], at: usize, bits: u32) -> Result<(u64, usize), DecodeError>
    requires inside { at ≤ length bytes.now }
    requires bits { bits ≤ 64 }
    ensures exact { result ≡ unsigned_of bits (drop at bytes.now) at }
    ensures fits { IfOk result (λ found. found.0 < 2 ^ bits) }
    ensures beyond { IfOk result (λ found. at < found.1) }
    ensures inside { IfOk result (λ found. found.1 ≤ length bytes.now) }
{
    if at == bytes.len() {
        return fault(FaultKind::Truncated, at);
    }
    let byte = u64::from(bytes[at]);
    if byte > 127 && bits > 7 {
        let (high, next) = unsigned(bytes, at + 1, bits - 7)?;
        return Ok((byte - 128 + 128 * high, next));
    }
    if byte < 1 << bits.min(7) {
        return Ok((byte, at + 1));
    }
    fault(FaultKind::Leb, at)
}

fn signed(bytes: &[u8], at: usize, bits: u32) -> Result<(i64, usize), DecodeError>
    requires inside { at ≤ length bytes.now }
    requires some { 0 < bits }
    requires bits { bits ≤ 64 }
    ensures exact { result ≡ signed_of bits (drop at bytes.now) at }
    ensures low { IfOk result (λ found. neg_ℤ (pos (2 ^ (bits - 1))) ≤ℤ found.0) }
    ensures high { IfOk result (λ found. found.0 <ℤ pos (2 ^ (bits - 1))) }
    ensures beyond { IfOk result (λ found. at < found.1) }
    ensures inside { IfOk result (λ found. found.1 ≤ length bytes.now) }
{
    if at == bytes.len() {
        return fault(FaultKind::Truncated, at);
    }
    let byte = bytes[at];
    if byte > 127 && bits > 7 {
        let (high, next) = signed(bytes, at + 1, bits - 7)?;
        return Ok((i64::from(byte - 128) + 128 * high, next));
    }
    let half = 1u8 << (bits.min(7) - 1);
    if byte < half {
        return Ok((i64::from(byte), at + 1));
    }
    if 128 - half <= byte && byte < 128 {
        return Ok((i64::from(byte) - 128, at + 1));
    }
    fault(FaultKind::Leb, at)
}

#[inline(always)]
#[tactic(auto, unfolding(crate::specs::Reading::u32_at))]
fn word(bytes: &[u8], at: usize) -> Result<(u32, usize), DecodeError>
    requires { at ≤ length bytes.now }
    ensures exact { result ≡ u32_at bytes.now at }
    ensures beyond { IfOk result (λ found. at < found.1) }
    ensures inside { IfOk result (λ found. found.1 ≤ length bytes.now) }
{
    if at < bytes.len() && bytes[at] < 128 {
        return Ok((u32::from(bytes[at]), at + 1));
    }
    let (value, next) = unsigned(bytes, at, 32)?;
    Ok((value as u32, next))
}

/// Reads an unsigned number of 32 bits in LEB128; returns it and the offset after it.
#[inline(always)]
pub fn read_u32(bytes: &[u8], at: usize) -> Result<(u32, usize), DecodeError>
    requires { at ≤ length bytes.now }
    // The bytes up to the next place spell the number.
    ensures found { IfOk result (λ x. IsFound u32 bytes.now at x.0 x.1) }
    // What spells a number is read, whatever follows it.
    ensures only { Complete u32 bytes.now at result }
    // Where the bytes break, and in which way.
    ensures fault { IfErr result (λ e. Broken u32 bytes.now at e) }
    ensures exact { result ≡ u32_at bytes.now at }
    ensures beyond { IfOk result (λ found. at < found.1) }
    ensures inside { IfOk result (λ found. found.1 ≤ length bytes.now) }
{
    word(bytes, at)
}

#[inline(always)]
#[tactic(auto, unfolding(crate::specs::Reading::s32_at))]
fn s32(bytes: &[u8], at: usize) -> Result<(i32, usize), DecodeError>
    requires { at ≤ length bytes.now }
    ensures exact { result ≡ s32_at bytes.now at }
    ensures beyond { IfOk result (λ found. at < found.1) }
    ensures inside { IfOk result (λ found. found.1 ≤ length bytes.now) }
{
    if at < bytes.len() && bytes[at] < 64 {
        return Ok((i32::from(bytes[at]), at + 1));
    }
    let (value, next) = signed(bytes, at, 32)?;
    Ok((value as i32, next))
}

/// Reads a signed number of 32 bits in LEB128; returns it and the offset after it.
#[inline(always)]
pub fn read_s32(bytes: &[u8], at: usize) -> Result<(i32, usize), DecodeError>
    requires { at ≤ length bytes.now }
    // The bytes up to the next place spell the number.
    ensures found { IfOk result (λ x. IsFound s32 bytes.now at x.0 x.1) }
    // What spells a number is read, whatever follows it.
    ensures only { Complete s32 bytes.now at result }
    // Where the bytes break, and in which way.
    ensures fault { IfErr result (λ e. Broken s32 bytes.now at e) }
    ensures exact { result ≡ s32_at bytes.now at }
    ensures beyond { IfOk result (λ found. at < found.1) }
    ensures inside { IfOk result (λ found. found.1 ≤ length bytes.now) }
{
    s32(bytes, at)
}

#[inline(always)]
#[tactic(auto, unfolding(crate::specs::Reading::s64_at))]
fn s64(bytes: &[u8], at: usize) -> Result<(i64, usize), DecodeError>
    requires { at ≤ length bytes.now }
    ensures exact { result ≡ s64_at bytes.now at }
    ensures beyond { IfOk result (λ found. at < found.1) }
    ensures inside { IfOk result (λ found. found.1 ≤ length bytes.now) }
{
    if at < bytes.len() && bytes[at] < 64 {
        return Ok((i64::from(bytes[at]), at + 1));
    }
    signed(bytes, at, 64)
}

/// Reads a signed number of 64 bits in LEB128; returns it and the offset after it.
#[inline(always)]
pub fn read_s64(bytes: &[u8], at: usize) -> Result<(i64, usize), DecodeError>
    requires { at ≤ length bytes.now }
    // The bytes up to the next place spell the number.
    ensures found { IfOk result (λ x. IsFound s64 bytes.now at x.0 x.1) }
    // What spells a number is read, whatever follows it.
    ensures only { Complete s64 bytes.now at result }
    // Where the bytes break, and in which way.
    ensures fault { IfErr result (λ e. Broken s64 bytes.now at e) }
    ensures exact { result ≡ s64_at bytes.now at }
    ensures beyond { IfOk result (λ found. at < found.1) }
    ensures inside { IfOk result (λ found. found.1 ≤ length bytes.now) }
{
    s64(bytes, at)
}
