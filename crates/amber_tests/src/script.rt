//! A script that is read, one whose third line is bad, and single lines. Tests `amber_script`.

use crate::expected::expect_text;
use amber_flow::read_flow;
use amber_log::{Command, Commands};
use amber_report::ok_line;
use amber_rows::Flow;
use amber_script::{ScriptErr, ScriptLine, read_line, read_script};
use std::alloc::{AllocError, Global};
use std::test::Fail;

const WORKFLOW: &str = r#"{"operators":[
{"id":"o","kind":"scan","file":"o.csv","columns":[["id","int"],["item","text"]]},
{"id":"f","kind":"filter","input":"o","column":"item","op":"!=","constant":"nut"},
{"id":"s","kind":"sink","input":"f"}]}"#;

const SCRIPT: &str =
    "# a comment\n\tpause \"f\" 2\r\nrun\n\nset f \"a \\\"b\\\"\"\ninspect f\nclear f\nrun";

const READ: &str =
    "ok pause f 2\nok run\nok set f \"a \\\"b\\\"\"\nok inspect f\nok clear f\nok run\n";

// These commands, a line each.
fn told(alloc: Global, flow: &Flow, commands: &[Command]) -> Result<String, AllocError> {
    let mut text = Vec::new(alloc);
    for command in commands {
        text.extend_from_slice(ok_line(alloc, flow, command, None)?.get())?;
    }
    String::from_utf8_lossy(alloc, text.as_slice())
}

// The commands of a script, or why there are none.
fn shown(
    alloc: Global,
    flow: &Flow,
    found: &Result<Commands, ScriptErr>,
) -> Result<String, AllocError> {
    match found {
        Ok(commands) => told(alloc, flow, commands.get()),
        Err(error) => error.to_string(alloc),
    }
}

// What a script is read as under the workflow.
fn read(alloc: Global, script: &str) -> Result<String, Fail> {
    let flow = read_flow(alloc, WORKFLOW.as_bytes())?;
    let found = read_script(alloc, script.as_bytes(), &flow);
    Ok(shown(alloc, &flow, &found)?)
}

#[test]
fn a_script_is_read(rt: HostRuntime) -> Result<(), Fail> {
    expect_text(read(rt.alloc(), SCRIPT)?, READ)
}

#[test]
fn a_bad_line_is_named(rt: HostRuntime) -> Result<(), Fail> {
    expect_text(read(rt.alloc(), "run\n\npause s 0\nend")?, "line 3: Kind")
}

// What a line says under the workflow.
fn said(alloc: Global, line: &str) -> Result<String, Fail> {
    let flow = read_flow(alloc, WORKFLOW.as_bytes())?;
    match read_line(alloc, line.as_bytes(), &flow)? {
        ScriptLine::Skipped => Ok(String::from_str(alloc, "skipped")?),
        ScriptLine::Command(command) => Ok(told(alloc, &flow, &[command])?),
        ScriptLine::Bad(why) => Ok(why.to_string(alloc)?),
    }
}

#[test]
fn a_line_says_a_command(rt: HostRuntime) -> Result<(), Fail> {
    expect_text(said(rt.alloc(), " pause \"f\" 2\r")?, "ok pause f 2\n")
}

#[test]
fn a_comment_says_nothing(rt: HostRuntime) -> Result<(), Fail> {
    expect_text(said(rt.alloc(), "\t# run")?, "skipped")
}

#[test]
fn a_bad_line_says_its_reason(rt: HostRuntime) -> Result<(), Fail> {
    expect_text(said(rt.alloc(), "pause s 0")?, "Kind")
}
