//! Files of tokens, fields, and who has a token.

use crate::tables::agree;
use anyhow::{Result, ensure};
use std::alloc::Global;
use wh_tokens::{GrantsError, Who, bearer_token, parse_grants, who_has};

// SHA-256 of `abc`, of the empty text, and of `abcdbcdecdefdefgefghfghighijhijkijkljklmklmnlmnomnopnopq`, as FIPS 180-4 has them.
const FILE: &str =
    "# who may ask\n\noperator ba7816bf8f01cfea414140de5dae2223b00361a396177a9cb410ff61f20015ad\n\
    0 e3b0c44298fc1c149afbf4c8996fb92427ae41e4649b934ca495991b7852b855\n\
    4294967295 248d6a61d20638b8e5c026930c3e6039a33ce45964ff2167f6ecedd419db06c1\n";

const OWNERS: [(&str, Option<Who>); 5] = [
    ("abc", Some(Who::Operator)),
    ("", Some(Who::Tenant(0))),
    (
        "abcdbcdecdefdefgefghfghighijhijkijkljklmklmnlmnomnopnopq",
        Some(Who::Tenant(4294967295)),
    ),
    ("ab", None),
    ("ABC", None),
];

// Files that aren't taken.
const FAULTS: [(&str, GrantsError); 9] = [
    ("operator", GrantsError::Line(1)),
    (
        "\nOperator ba7816bf8f01cfea414140de5dae2223b00361a396177a9cb410ff61f20015ad",
        GrantsError::Line(2),
    ),
    (
        "operator  ba7816bf8f01cfea414140de5dae2223b00361a396177a9cb410ff61f20015ad",
        GrantsError::Line(1),
    ),
    (
        "operator ba7816bf8f01cfea414140de5dae2223b00361a396177a9cb410ff61f20015ad\r\n",
        GrantsError::Line(1),
    ),
    (
        "operator BA7816BF8F01CFEA414140DE5DAE2223B00361A396177A9CB410FF61F20015AD",
        GrantsError::Line(1),
    ),
    (
        "07 ba7816bf8f01cfea414140de5dae2223b00361a396177a9cb410ff61f20015ad",
        GrantsError::Line(1),
    ),
    (
        "4294967296 ba7816bf8f01cfea414140de5dae2223b00361a396177a9cb410ff61f20015ad",
        GrantsError::Line(1),
    ),
    (
        "1 ba7816bf8f01cfea414140de5dae2223b00361a396177a9cb410ff61f20015ad\n#\n\
        2 ba7816bf8f01cfea414140de5dae2223b00361a396177a9cb410ff61f20015ad\nx",
        GrantsError::Twice(3),
    ),
    (
        "1 ba7816bf8f01cfea414140de5dae2223b00361a396177a9cb410ff61f20015ad\nx\n\
        2 ba7816bf8f01cfea414140de5dae2223b00361a396177a9cb410ff61f20015ad",
        GrantsError::Line(2),
    ),
];

const FIELDS: [(&str, Option<&str>); 13] = [
    ("Bearer abc", Some("abc")),
    ("bearer abc", Some("abc")),
    ("BEARER   abc", Some("abc")),
    ("Bearer mF_9.B5f-4.1JqM", Some("mF_9.B5f-4.1JqM")),
    ("Bearer a+/~==", Some("a+/~==")),
    ("Bearer", None),
    ("Bearer ", None),
    ("Bearer abc ", None),
    ("Bearer a=b", None),
    ("Bearer =", None),
    ("Bearerabc", None),
    (" Bearer abc", None),
    ("Basic QWxhZGRpbjpvcGVuIHNlc2FtZQ==", None),
];

/// Checks each table, and returns how many rows they have.
///
/// # Errors
/// At the first row that comes out otherwise.
pub fn check(alloc: Global) -> Result<usize> {
    let grants = parse_grants(alloc, FILE.as_bytes())?;
    ensure!(grants.len() == 3, "the file has another number of grants");
    let wrong = OWNERS
        .iter()
        .position(|(token, who)| who_has(&grants, token.as_bytes()) != *who);
    agree("owners", wrong)?;
    for (row, (text, fault)) in FAULTS.iter().enumerate() {
        match parse_grants(alloc, text.as_bytes()) {
            Ok(_) => agree("files", Some(row))?,
            Err(error) => ensure!(error == *fault, "files: row {row} came out otherwise"),
        }
    }
    let wrong = FIELDS.iter().position(|(field, token)| bearer_token(field.as_bytes())
        != token.map(|text| text.as_bytes()));
    agree("fields", wrong)?;
    Ok(OWNERS.len() + FAULTS.len() + FIELDS.len())
}
