//! The call `plain` of `amber_plain` by itself: how many rows all operators may give, which the top call
//! never limits below 2^40.

ghost use Rattle.std.specs.Prelude.{◌≡◌};
ghost use Rattle.amber_meaning.specs.Plain.{scan_count};

use crate::expected::expect_text;
use amber_flow::read_flow;
use amber_meaning::{Answer, PlainErr};
use amber_plain::plain;
use amber_rows::{Bytes, FileBytes, Files, Flow};
use std::alloc::{AllocError, Global};
use std::test::Fail;

// The prices have three rows, the orders five, the join six and the sink six.
const PRICED: &str = r#"{"operators":[
{"id":"i","kind":"scan","file":"i.csv","columns":[["name","text"],["price","int"]]},
{"id":"o","kind":"scan","file":"o.csv","columns":[["id","int"],["item","text"],["qty","int"]]},
{"id":"j","kind":"join","build":"i","probe":"o","build_keys":["name"],"probe_keys":["item"]},
{"id":"s","kind":"sink","input":"j"}]}"#;

const PRICES: &str = "name,price\nnut,3\nbolt,4\nbolt,9\n";

const ORDERS: &str = "id,item,qty\n1,nut,5\n2,bolt,12\n3,nut,7\n4,cog,12\n5,bolt,1\n";

fn file_bytes(alloc: Global, file: &str) -> Result<FileBytes, AllocError> {
    let bytes = Bytes::new(Vec::from_slice(alloc, file.as_bytes())?);
    FileBytes::new(alloc, bytes)
}

#[tactic(auto, unfolding(amber_meaning::specs::Plain::scan_count))]
fn scans_of(flow: &Flow) -> usize
    ensures { result ≡ scan_count flow.now }
{
    flow.get()
        .iter()
        .filter(|operator| operator.what.is_scan())
        .count()
}

// The files of the prices and of the orders.
fn files(alloc: Global, prices: &str) -> Result<Files, AllocError> {
    let mut files = Vec::new(alloc);
    files.push(file_bytes(alloc, prices)?)?;
    files.push(file_bytes(alloc, ORDERS)?)?;
    Ok(Files::new(files))
}

// How many rows an answer has, or why there is none.
fn shown(alloc: Global, found: &Result<Answer, PlainErr>) -> Result<String, AllocError> {
    let (what, number) = match found {
        Ok(answer) => ("rows", answer.rows.len()),
        Err(PlainErr::Header(op)) => ("header", *op as usize),
        Err(PlainErr::Long) => ("long", 0),
        Err(PlainErr::NoMemory) => ("no memory", 0),
    };
    format!(in alloc; "{what} {number}")
}

// The same of the answer over these prices and the orders.
fn told(alloc: Global, flow: &Flow, prices: &str, most: u64) -> Result<String, AllocError> {
    let files = files(alloc, prices)?;
    if files.get().len() != scans_of(flow) {
        return String::from_str(alloc, "not a file for each scan");
    }
    let found = plain(alloc, flow, &files, most);
    shown(alloc, &found)
}

// Prices, how many rows there may be, and what comes of it.
const LIMITS: [(&str, u64, &str); 4] = [
    (PRICES, 20, "rows 6"),
    (PRICES, 19, "long 0"),
    (PRICES, 0, "long 0"),
    ("name\nnut\n", 20, "header 1"),
];

#[test]
fn all_operators_rows_are_counted(rt: HostRuntime) -> Result<(), Fail> {
    let alloc = rt.alloc();
    let flow = read_flow(alloc, PRICED.as_bytes())?;
    for (prices, most, want) in LIMITS {
        expect_text(told(alloc, &flow, prices, most)?, want)?;
    }
    Ok(())
}
