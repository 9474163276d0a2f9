//! Whole verdicts, in sentences and as JSON.

use anyhow::{Result, ensure};
use std::alloc::Global;
use wh_explain::{
    explain_module, explain_script, explain_settings, module_json, script_json, settings_json,
    write_module, write_script, write_settings,
};

// Modules, each with its verdict as JSON and in sentences.
const MODULES: [(&[u8], &str, &str); 6] = [
    (
        b"\x00asm\x01\x00\x00\x00",
        "{\"file\":\"m.wasm\",\"kind\":\"module\",\"accepted\":true,\"refusal\":null}",
        "m.wasm: accepted\n",
    ),
    (
        b"\x00asm\x01\x00\x00\x00\x01\x02\x81\x08",
        "{\"file\":\"m.wasm\",\"kind\":\"module\",\"accepted\":false,\"refusal\":{\"fault\":\"D11\",\"name\":\"Limit\",\"place\":{\"section\":\"type\",\"entry\":null,\"function\":null,\"function_name\":null,\"instruction\":null,\"opcode\":null,\"offset\":10},\"limit\":{\"name\":\"function types\",\"most\":1024},\"message\":\"a limit of this host is passed: more than 1024 function types\",\"advice\":\"Leave out what isn't called, by -Wl,--gc-sections, or split the module.\"}}",
        "m.wasm: refused, D11 Limit\nWhat is wrong: a limit of this host is passed: more than 1024 function types\nWhere: the type section, byte 10\nWhat to do: Leave out what isn't called, by -Wl,--gc-sections, or split the module.\n",
    ),
    (
        b"\x00asm\x01\x00\x00\x00\x01\x04\x01\x60\x00\x00\x03\x02\x01\x00\x07\x05\x01\x01a\x00\x00\x0A\x05\x01\x03\x00\x92\x0B",
        "{\"file\":\"m.wasm\",\"kind\":\"module\",\"accepted\":false,\"refusal\":{\"fault\":\"D9\",\"name\":\"Float\",\"place\":{\"section\":\"code\",\"entry\":null,\"function\":0,\"function_name\":\"a\",\"instruction\":0,\"opcode\":\"f32.add\",\"offset\":30},\"limit\":null,\"message\":\"floating point is left out: f32.add\",\"advice\":\"Compute with integers: no float or double may be left, in libraries that are linked in either.\"}}",
        "m.wasm: refused, D9 Float\nWhat is wrong: floating point is left out: f32.add\nWhere: the code section, function 0, instruction 0 (f32.add), byte 30\nThe function's name: \"a\"\nWhat to do: Compute with integers: no float or double may be left, in libraries that are linked in either.\n",
    ),
    (
        b"\x00asm\x01\x00\x00\x00\x01\x04\x01\x60\x00\x00\x03\x02\x01\x00\x07\x05\x01\x01a\x00\x00\x0A\x05\x01\x03\x00\x92\x0B\x00\x0D\x04name\x01\x06\x01\x00\x03sum",
        "{\"file\":\"m.wasm\",\"kind\":\"module\",\"accepted\":false,\"refusal\":{\"fault\":\"D9\",\"name\":\"Float\",\"place\":{\"section\":\"code\",\"entry\":null,\"function\":0,\"function_name\":\"sum\",\"instruction\":0,\"opcode\":\"f32.add\",\"offset\":30},\"limit\":null,\"message\":\"floating point is left out: f32.add\",\"advice\":\"Compute with integers: no float or double may be left, in libraries that are linked in either.\"}}",
        "m.wasm: refused, D9 Float\nWhat is wrong: floating point is left out: f32.add\nWhere: the code section, function 0, instruction 0 (f32.add), byte 30\nThe function's name: \"sum\"\nWhat to do: Compute with integers: no float or double may be left, in libraries that are linked in either.\n",
    ),
    (
        b"\x00asm\x01\x00\x00\x00\x01\x05\x01`\x01\x7F\x00\x02\x0E\x01\x03env\x06memcpy\x00\x00",
        "{\"file\":\"m.wasm\",\"kind\":\"module\",\"accepted\":false,\"refusal\":{\"fault\":\"L1\",\"name\":\"UnknownImport\",\"place\":{\"section\":\"import\",\"entry\":0,\"function\":null,\"function_name\":null,\"instruction\":null,\"opcode\":null,\"offset\":18},\"limit\":null,\"message\":\"the host has nothing of its name: \\\"memcpy\\\" of module \\\"env\\\", [i32] -> []\",\"advice\":\"Define it in the module, or link a library that does: docs/guide/compiling-c.md and compiling-libc.md say how.\"}}",
        "m.wasm: refused, L1 UnknownImport\nWhat is wrong: the host has nothing of its name: \"memcpy\" of module \"env\", [i32] -> []\nWhere: the import section, entry 0, byte 18\nWhat to do: Define it in the module, or link a library that does: docs/guide/compiling-c.md and compiling-libc.md say how.\n",
    ),
    (
        b"\x00asm\x01\x00\x00\x00\x01\x05\x01`\x01\x7F\x00\x02$\x01\x16wasi_snapshot_preview1\x09proc_exit\x00\x00",
        "{\"file\":\"m.wasm\",\"kind\":\"module\",\"accepted\":false,\"refusal\":{\"fault\":\"L1\",\"name\":\"UnknownImport\",\"place\":{\"section\":\"import\",\"entry\":0,\"function\":null,\"function_name\":null,\"instruction\":null,\"opcode\":null,\"offset\":18},\"limit\":null,\"message\":\"the host has nothing of its name: \\\"proc_exit\\\" of module \\\"wasi_snapshot_preview1\\\", [i32] -> []\",\"advice\":\"There is no WASI here: docs/guide/compiling-libc.md says how C is built without it, compiling-cpp.md C++, and compiling-rust.md Rust.\"}}",
        "m.wasm: refused, L1 UnknownImport\nWhat is wrong: the host has nothing of its name: \"proc_exit\" of module \"wasi_snapshot_preview1\", [i32] -> []\nWhere: the import section, entry 0, byte 18\nWhat to do: There is no WASI here: docs/guide/compiling-libc.md says how C is built without it, compiling-cpp.md C++, and compiling-rust.md Rust.\n",
    ),
];

// Documents of settings, each with its verdict as JSON and in sentences.
const SETTINGS: [(&str, &str, &str); 2] = [
    (
        "frames = 2",
        "{\"file\":\"s.toml\",\"kind\":\"settings\",\"accepted\":true,\"findings\":[]}",
        "s.toml: accepted\n",
    ),
    (
        "hash = \"md5\"",
        "{\"file\":\"s.toml\",\"kind\":\"settings\",\"accepted\":false,\"findings\":[{\"key\":\"hash\",\"value\":\"\\\"md5\\\"\",\"message\":\"hash is \\\"md5\\\", and has to be \\\"fnv64\\\" or \\\"constant\\\"\",\"advice\":\"Change the value, or leave the key out.\"}]}",
        "s.toml: refused\nWhat is wrong: hash is \"md5\", and has to be \"fnv64\" or \"constant\"\nWhat to do: Change the value, or leave the key out.\n",
    ),
];

// Scripts, each with its verdict as JSON and in sentences.
const SCRIPTS: [(&[u8], &str, &str); 2] = [
    (
        b"scan\n",
        "{\"file\":\"a.script\",\"kind\":\"script\",\"accepted\":true,\"findings\":[]}",
        "a.script: accepted\n",
    ),
    (
        b"\nscan now\nscan\r\n",
        "{\"file\":\"a.script\",\"kind\":\"script\",\"accepted\":false,\"findings\":[{\"line\":2,\"word\":2,\"message\":\"word 2, \\\"now\\\", is one too many\",\"advice\":\"Write scan.\"},{\"line\":3,\"word\":null,\"message\":\"the line ends with a carriage return\",\"advice\":\"End lines by a newline alone, as by dos2unix.\"}]}",
        "a.script: refused\nLine 2: word 2, \"now\", is one too many\nWhat to do: Write scan.\nLine 3: the line ends with a carriage return\nWhat to do: End lines by a newline alone, as by dos2unix.\n",
    ),
];

/// Fails where a verdict is written otherwise.
fn compare(json: &str, wanted: &str, text: &[u8], sentences: &str) -> Result<()> {
    ensure!(json == wanted, "written: {json}");
    ensure!(
        text == sentences.as_bytes(),
        "other sentences than {sentences}"
    );
    Ok(())
}

fn look_at_module(alloc: Global, bytes: &[u8], json: &str, sentences: &str) -> Result<()> {
    let verdict = explain_module(alloc, bytes)?;
    let mut text = Vec::new(alloc);
    write_module("m.wasm", &verdict, &mut text)?;
    compare(
        &module_json(alloc, "m.wasm", &verdict)?,
        json,
        &text,
        sentences,
    )
}

fn look_at_settings(alloc: Global, document: &str, json: &str, sentences: &str) -> Result<()> {
    let verdict = explain_settings(alloc, document.as_bytes())?;
    let mut text = Vec::new(alloc);
    write_settings("s.toml", &verdict, &mut text)?;
    compare(
        &settings_json(alloc, "s.toml", &verdict)?,
        json,
        &text,
        sentences,
    )
}

fn look_at_script(alloc: Global, script: &[u8], json: &str, sentences: &str) -> Result<()> {
    let mut reader = script;
    let verdict = explain_script(alloc, &mut reader)?;
    let mut text = Vec::new(alloc);
    write_script("a.script", &verdict, &mut text)?;
    compare(
        &script_json(alloc, "a.script", &verdict)?,
        json,
        &text,
        sentences,
    )
}

/// Looks at each file: how many they are.
pub fn check(alloc: Global) -> Result<usize> {
    for (bytes, json, sentences) in MODULES.iter() {
        look_at_module(alloc, bytes, json, sentences)?;
    }
    for (document, json, sentences) in SETTINGS.iter() {
        look_at_settings(alloc, document, json, sentences)?;
    }
    for (script, json, sentences) in SCRIPTS.iter() {
        look_at_script(alloc, script, json, sentences)?;
    }
    Ok(MODULES.len() + SETTINGS.len() + SCRIPTS.len())
}
