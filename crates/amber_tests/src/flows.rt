//! A workflow that is read. Tests `amber_flow`.

use crate::expected::{expect_bytes, expect_text};
use amber_flow::{FlowErr, FlowWhy, read_flow};
use amber_rows::{Flow, NoMemory, append_names};
use std::alloc::Global;
use std::test::Fail;

// A workflow of all kinds.
const WORKFLOW: &str = r#"{"operators":[
{"id":"p","kind":"scan","file":"p.csv","columns":[["name","text"],["price","int"]]},
{"id":"o","kind":"scan","file":"o.csv","columns":[["id","int"],["item","text"],["qty","int"]]},
{"id":"f","kind":"filter","input":"o","column":"qty","op":">=","constant":0},
{"id":"q","kind":"project","input":"f","columns":[["qty","n"],["item","thing"]]},
{"id":"j","kind":"join","build":"p","probe":"q","build_keys":["name","price"],"probe_keys":["thing","n"]},
{"id":"g","kind":"group","input":"j","keys":["price","thing"],"aggregates":["max:name","count","sum:n","min:n"]},
{"id":"s","kind":"sink","input":"g"}]}"#;

// The id of each of its operators, and the columns that it gives.
const READ: &str = "\
p: name,price
o: id,item,qty
f: id,item,qty
q: n,thing
j: n,thing,name,price
g: price,thing,max:name,count,sum:n,min:n
s: price,thing,max:name,count,sum:n,min:n
";

// The operators of a workflow as such lines.
fn told(alloc: Global, flow: &Flow) -> Result<Vec<u8>, NoMemory> {
    let mut text = Vec::new(alloc);
    for operator in flow.get() {
        text.extend_from_slice(operator.id.get().as_bytes())?;
        text.extend_from_slice(b": ")?;
        text = append_names(alloc, text, &operator.schema)?;
    }
    Ok(text)
}

#[test]
fn each_kind_is_read(rt: HostRuntime) -> Result<(), Fail> {
    let alloc = rt.alloc();
    let flow = read_flow(alloc, WORKFLOW.as_bytes())?;
    expect_bytes(alloc, &told(alloc, &flow)?, READ)
}

#[test]
fn errors_are_shown(rt: HostRuntime) -> Result<(), Fail> {
    let error = FlowErr::Bad {
        op: 3,
        why: FlowWhy::SinkPlace,
    };
    expect_text(error.to_string(rt.alloc())?, "operator 3: SinkPlace")
}
