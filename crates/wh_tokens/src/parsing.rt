//! The file of tokens.

ghost use Rattle.std.specs.Prelude.{◌≡◌, ◌≢◌, ℕ, List, IfSome, IfNone, IfOk, IfErr, OnOk, All};
ghost use Rattle.std.specs.Bool.{MatchBool};
ghost use Rattle.wh_tokens.specs.declared.grants.Who.{Who};
ghost use Rattle.wh_tokens.specs.declared.grants.Grant.{Grant};
ghost use Rattle.wh_tokens.specs.GrantLines.{is_left_out, SpellsWho, SpellsGrant, TakesLine, IsWrongLine};
ghost use Rattle.wh_tokens.specs.GrantLines.{SpellsGrants, IsWrongText};

use crate::error::GrantsError;
use crate::grants::{Grant, Who, is_same_digest};
use std::alloc::Global;
use wh_routes::{cut, digest_in, number_in};

// Whether a line says nothing: it is empty, or a comment.
fn says_nothing(line: &[u8]) -> bool
    ensures { result ≡ is_left_out line.now }
{
    match line.first() {
        Some(first) => *first == b'#',
        None => true,
    }
}

// Whose a line's token is, by its first word.
fn who_in(word: &[u8]) -> Option<Who>
    ensures some { IfSome result (λ who. SpellsWho word.now who) }
    ensures none { IfNone result ((who : Who) → ¬ (SpellsWho word.now who)) }
{
    if word == b"operator".as_slice() {
        return Some(Who::Operator);
    }
    let number = number_in(word)?;
    if number > 0xFFFF_FFFF {
        return None;
    }
    Some(Who::Tenant(number as u32))
}

// The grant that a line spells.
fn grant_in(line: &[u8]) -> Option<Grant>
    ensures some { IfSome result (λ grant. SpellsGrant line.now grant) }
    ensures none { IfNone result ((grant : Grant) → ¬ (SpellsGrant line.now grant)) }
{
    let (word, rest) = cut(line, b' ');
    let who = who_in(word)?;
    let Some(rest) = rest else {
        return None;
    };
    let digest = digest_in(rest)?;
    Some(Grant { digest, who })
}

// Whether a grant has the digest.
fn has_digest(grants: &[Grant], digest: &[u8; 32]) -> bool
    ensures { MatchBool result
        (¬ (All (λ grant. grant.digest ≢ digest.now) grants.now))
        (All (λ grant. grant.digest ≢ digest.now) grants.now) }
{
    for grant in grants {
        if is_same_digest(&grant.digest, digest) {
            return true;
        }
    }
    false
}

// Takes a line's grant, if it has one.
fn take_line(grants: &mut Vec<Grant>, number: usize, line: &[u8]) -> Result<(), GrantsError>
    ensures taken { OnOk result (TakesLine grants.old.items line.now grants.new.items) }
    ensures wrong { IfErr result (λ error. IsWrongLine grants.old.items number line.now error) }
{
    if says_nothing(line) {
        return Ok(());
    }
    let Some(grant) = grant_in(line) else {
        return Err(GrantsError::Line(number));
    };
    if has_digest(grants, &grant.digest) {
        return Err(GrantsError::Twice(number));
    }
    if grants.push(grant).is_err() {
        return Err(GrantsError::Memory);
    }
    Ok(())
}

/// Parses a file of tokens: a grant in each line, `operator DIGEST` or `NUMBER DIGEST`, a tenant's number below 2^32
/// without zeros in front and the digest 64 hexadecimal digits, letters small. Empty lines and lines that begin with
/// `#` are left out; lines end at `\n` alone.
///
/// # Errors
/// [`GrantsError::Line`] or [`GrantsError::Twice`], whichever line is wrong first; [`GrantsError::Memory`].
pub fn parse_grants(alloc: Global, text: &[u8]) -> Result<Vec<Grant>, GrantsError>
    ensures grants { IfOk result (λ grants. SpellsGrants text.now grants.items) }
    ensures wrong { IfErr result (λ error. IsWrongText text.now error) }
{
    let mut grants = Vec::new(alloc);
    let mut number = 0;
    let mut rest = Some(text);
    while let Some(lines) = rest {
        let (line, behind) = cut(lines, b'\n');
        number += 1;
        take_line(&mut grants, number, line)?;
        rest = behind;
    }
    Ok(grants)
}
