//! Paths and queries.

use crate::tables::agree;
use anyhow::Result;
use wh_routes::{InstancePart, NotNumber, Route, find_route, query_number, query_value};

// The SHA-256 of no bytes.
const EMPTY: [u8; 32] = [
    0xe3, 0xb0, 0xc4, 0x42, 0x98, 0xfc, 0x1c, 0x14, 0x9a, 0xfb, 0xf4, 0xc8, 0x99, 0x6f, 0xb9, 0x24,
    0x27, 0xae, 0x41, 0xe4, 0x64, 0x9b, 0x93, 0x4c, 0xa4, 0x95, 0x99, 0x1b, 0x78, 0x52, 0xb8, 0x55,
];

const PATHS: [(&str, Route<'static>); 26] = [
    ("/", Route::Page),
    ("/healthz", Route::Health),
    ("/readyz", Route::Ready),
    ("/metrics", Route::Metrics),
    ("/v1/report", Route::Report),
    ("/v1/epoch", Route::Epoch),
    ("/v1/scan", Route::Scan),
    ("/v1/stop", Route::Stop),
    ("/v1/modules", Route::Modules),
    (
        "/v1/modules/e3b0c44298fc1c149afbf4c8996fb92427ae41e4649b934ca495991b7852b855",
        Route::Module(EMPTY),
    ),
    (
        "/v1/modules/e3b0c44298fc1c149afbf4c8996fb92427ae41e4649b934ca495991b7852b855/exports",
        Route::Exports(EMPTY),
    ),
    ("/v1/instances", Route::Instances),
    (
        "/v1/instances/7",
        Route::Instance(b"7", InstancePart::Itself),
    ),
    (
        "/v1/instances/a.B_c-9",
        Route::Instance(b"a.B_c-9", InstancePart::Itself),
    ),
    (
        "/v1/instances/calls",
        Route::Instance(b"calls", InstancePart::Itself),
    ),
    (
        "/v1/instances/calls/calls",
        Route::Instance(b"calls", InstancePart::Calls),
    ),
    (
        "/v1/instances/x/calls/0",
        Route::Instance(b"x", InstancePart::Call(0)),
    ),
    (
        "/v1/instances/x/calls/18446744073709551615",
        Route::Instance(b"x", InstancePart::Call(18446744073709551615)),
    ),
    (
        "/v1/instances/x/calls/10/fuel",
        Route::Instance(b"x", InstancePart::Fuel(10)),
    ),
    (
        "/v1/instances/x/calls/10/cancel",
        Route::Instance(b"x", InstancePart::Cancel(10)),
    ),
    (
        "/v1/instances/x/calls/10/retry",
        Route::Instance(b"x", InstancePart::Retry(10)),
    ),
    (
        "/v1/instances/x/output",
        Route::Instance(b"x", InstancePart::Output),
    ),
    (
        "/v1/instances/x/memory",
        Route::Instance(b"x", InstancePart::Memory),
    ),
    (
        "/v1/instances/x/transcript",
        Route::Instance(b"x", InstancePart::Transcript),
    ),
    (
        "/v1/instances/x/forgotten",
        Route::Instance(b"x", InstancePart::Forgotten),
    ),
    (
        "/v1/instances/0123456789012345678901234567890123456789012345678901234567890123",
        Route::Instance(
            b"0123456789012345678901234567890123456789012345678901234567890123",
            InstancePart::Itself,
        ),
    ),
];

// Paths that name nothing.
const NO_PATHS: [&str; 33] = [
    "",
    "//",
    "healthz",
    "/healthz/",
    "/Healthz",
    "/health",
    "/readyz?",
    "/v1",
    "/v1/",
    "/v2/report",
    "/v1/report/",
    "//v1/report",
    "/v1//report",
    "/v1/metrics",
    "/report",
    "/v1/modules/",
    "/v1/modules/e3b0c442",
    "/v1/modules/E3B0C44298FC1C149AFBF4C8996FB92427AE41E4649B934CA495991B7852B855",
    "/v1/modules/e3b0c44298fc1c149afbf4c8996fb92427ae41e4649b934ca495991b7852b8550",
    "/v1/modules/e3b0c44298fc1c149afbf4c8996fb92427ae41e4649b934ca495991b7852b855/",
    "/v1/modules/e3b0c44298fc1c149afbf4c8996fb92427ae41e4649b934ca495991b7852b855/exports/a",
    "/v1/instances/",
    "/v1/instances/.x",
    "/v1/instances/a%62",
    "/v1/instances/a b",
    "/v1/instances/01234567890123456789012345678901234567890123456789012345678901234",
    "/v1/instances/x/",
    "/v1/instances/x/calls/",
    "/v1/instances/x/calls/01",
    "/v1/instances/x/calls/+1",
    "/v1/instances/x/calls/18446744073709551616",
    "/v1/instances/x/calls/1/fuel/2",
    "/v1/instances/x/cancel",
];

// Queries, keys, and the value of the first pair of the key.
const VALUES: [(&str, &str, Option<&str>); 9] = [
    ("a=b&c=d", "a", Some("b")),
    ("a=b&c=d", "c", Some("d")),
    ("a=b&c=d", "b", None),
    ("a=b&a=d", "a", Some("b")),
    ("a=b=c", "a", Some("b=c")),
    ("a&b=c", "a", Some("")),
    ("aa=b", "a", None),
    ("", "", Some("")),
    ("a=%41", "a", Some("%41")),
];

const NUMBERS: [(&str, Result<Option<u64>, NotNumber>); 5] = [
    ("wait=60", Ok(Some(60))),
    ("wait=0&wait=1", Ok(Some(0))),
    ("weight=60", Ok(None)),
    ("wait=", Err(NotNumber)),
    ("wait=-1", Err(NotNumber)),
];

/// Checks each table, and returns how many rows they have.
///
/// # Errors
/// At the first row that comes out otherwise.
pub fn check() -> Result<usize> {
    let wrong = PATHS
        .iter()
        .position(|(path, to)| find_route(path.as_bytes()) != Some(*to));
    agree("paths", wrong)?;
    let wrong = NO_PATHS
        .iter()
        .position(|path| find_route(path.as_bytes()).is_some());
    agree("paths of nothing", wrong)?;
    let wrong = VALUES.iter().position(|(query, key, value)| {
        query_value(query.as_bytes(), key.as_bytes()) != value.map(|text| text.as_bytes())
    });
    agree("values", wrong)?;
    let wrong = NUMBERS.iter().position(|(query, number)| query_number(query.as_bytes(), b"wait")
        != *number);
    agree("numbers", wrong)?;
    Ok(PATHS.len() + NO_PATHS.len() + VALUES.len() + NUMBERS.len())
}
