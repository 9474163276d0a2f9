//! Instances that are released while their calls have come to anything, and what is asked of them later.

use crate::running::expect_all;
use std::test::Fail;

/// Calls that wait for fuel, wait, have ended or were refused, and a start that waits for fuel: each has one last line. What
/// is asked of a released instance is refused after any number of drains, and its name stays taken.
const LIVES: &[(&str, &str)] = &[
    ("load m loop", "module m ok\n"),
    ("load n seven", "module n ok\n"),
    ("load s start_loop", "module s ok\n"),
    ("admit a m 100 2 16 0 0 0", "admit a ok 0\n"),
    ("admit b n 100 2 16 0 0 0", "admit b ok 1\n"),
    ("admit c s 100 2 16 4 0 0", "admit c ok 2\n"),
    ("invoke a f 3", ""),
    ("invoke a f 9", ""),
    ("invoke b f 0", ""),
    ("invoke b g 0", ""),
    ("invoke c f 1", ""),
    (
        "release a",
        "start c fuel charges 4\ncall 1 fuel charges 3\ncall 2 queued\ncall 3 done 7 charges 0\ncall 4 refused H2\ncall 5 queued\nrelease a ok -\n",
    ),
    (
        "release b",
        "call 1 released charges 3\ncall 2 released charges 0\nrelease b ok -\n",
    ),
    ("release c", "release c ok -\n"),
    (
        "drain",
        "start c released charges 4\ncall 5 released charges 0\n",
    ),
    ("drain", ""),
    ("refuel a 1", "refuel a refused H1\n"),
    ("cancel b", "cancel b refused H1\n"),
    ("retry c", "retry c refused H1\n"),
    ("release a", "release a refused H1\n"),
    ("invoke a f 1", ""),
    ("invoke c f 1", ""),
    (
        "admit a m 100 2 16 0 0 0",
        "call 6 refused H1\ncall 7 refused H1\nerror C3 line 23\n",
    ),
    ("admit d n 100 2 16 0 0 0", "admit d ok 3\n"),
    ("invoke d f 0", ""),
    ("drain", "call 8 done 7 charges 0\n"),
    ("invoke b f 0", ""),
    ("", "call 9 refused H1\n"),
];

/// A call and a start that are cancelled before their instance is released, while another instance lives on.
const ENDED: &[(&str, &str)] = &[
    ("load m loop", "module m ok\n"),
    ("load s start_loop", "module s ok\n"),
    ("admit a m 100 2 16 0 0 0", "admit a ok 0\n"),
    ("admit e m 100 2 16 0 0 0", "admit e ok 1\n"),
    ("invoke a f 2", ""),
    ("invoke e f 1", ""),
    (
        "cancel e",
        "call 1 fuel charges 2\ncall 2 fuel charges 1\ncancel e ok\n",
    ),
    ("release e", "call 2 cancelled charges 1\nrelease e ok -\n"),
    ("drain", ""),
    ("retry e", "retry e refused H1\n"),
    ("admit f s 100 2 16 4 0 0", "admit f ok 2\n"),
    ("invoke f f 1", ""),
    (
        "cancel f",
        "start f fuel charges 4\ncall 3 queued\ncancel f ok\n",
    ),
    (
        "release f",
        "start f cancelled charges 4\ncall 3 dead\nrelease f ok -\n",
    ),
    ("drain", ""),
    ("refuel f 1", "refuel f refused H1\n"),
    ("refuel a 1", "refuel a ok\n"),
    ("", "call 1 fuel charges 3\n"),
];

#[test]
fn released_instances_have_one_last_line(rt: HostRuntime) -> Result<(), Fail> {
    expect_all(&rt, &[("", LIVES), ("", ENDED)])
}
