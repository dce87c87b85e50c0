//! Which worker gets a row, and who sends to whom. Tests `amber_rows`.

ghost use Rattle.std.specs.Prelude.{◌<◌};
ghost use Rattle.amber_rows.specs.Topology.{crew_of};

use crate::expected::expect_text;
use crate::written::{cols, row};
use amber_flow::read_flow;
use amber_rows::{Flow, NoMemory, key_bytes, route, route_row};
use std::alloc::Global;
use std::test::Fail;

// Vectors of FNV-1a with 64 bits: bytes, and the rests by two moduli, which show the low and the high half.
const VECTORS: [(&str, u32, u32); 3] = [
    ("", 69_346_085, 1_343_537_162),
    ("a", 100_789_388, 895_863_001),
    ("foobar", 2_000_250_856, 2_093_853_018),
];

#[test]
fn hashes_are_those_of_the_published_vectors(rt: HostRuntime) {
    for (key, low, high) in VECTORS {
        assert!(rt; route(key.as_bytes(), 2_147_483_648) == low);
        assert!(rt; route(key.as_bytes(), 4_294_967_295) == high);
    }
}

// The bytes of the key of a row in these columns, then the key's worker of 16 and of 4, and the row's of 16.
fn routed(alloc: Global, written: &str, columns: &[u32]) -> Result<String, NoMemory> {
    let columns = cols(alloc, columns)?;
    let row = row(alloc, written)?;
    let key = key_bytes(alloc, &row, &columns)?;
    let text = String::from_utf8_lossy(alloc, &key)?;
    let of_row = route_row(&row, &columns, 16);
    format!(in alloc; "{text} {} {} {of_row}", route(&key, 16), route(&key, 4))
}

// Rows, the columns of their keys, and that text.
const ROUTED: [(&str, &[u32], &str); 5] = [
    ("'nut", &[1], "t3:nut; 14 2 14"),
    ("7 'bolt", &[2], "t4:bolt; 15 3 15"),
    ("'cog 3", &[1], "t3:cog; 2 2 2"),
    ("' -7", &[2, 1], "i-7;t0:; 14 2 14"),
    ("1", &[], " 5 1 5"),
];

#[test]
fn keys_of_rows_go_to_their_workers(rt: HostRuntime) -> Result<(), Fail> {
    for (row, columns, want) in ROUTED {
        expect_text(routed(rt.alloc(), row, columns)?, want)?;
    }
    Ok(())
}

const WORKFLOW: &str = r#"{"operators":[
{"id":"p","kind":"scan","file":"p.csv","columns":[["name","text"],["price","int"]]},
{"id":"o","kind":"scan","file":"o.csv","columns":[["id","int"],["item","text"],["qty","int"]]},
{"id":"f","kind":"filter","input":"o","column":"qty","op":">=","constant":0},
{"id":"j","kind":"join","build":"p","probe":"f","build_keys":["name"],"probe_keys":["item"]},
{"id":"s","kind":"sink","input":"j"}]}"#;

// Who sends to a worker, and to whom it sends.
fn append_links(alloc: Global, text: &mut String, flow: &Flow, worker: u32) -> Result<(), NoMemory>
    requires { worker < crew_of flow.now }
{
    let senders = flow.senders(alloc, worker)?;
    let receivers = flow.receivers(alloc, worker)?;
    text.push_str(&format!(in alloc; "{:?} > {:?}; ", senders.get(), receivers.get())?)
}

// The links of all workers.
fn links(alloc: Global, flow: &Flow) -> Result<String, NoMemory> {
    let mut text = String::new(alloc);
    for worker in 0..flow.workers() {
        append_links(alloc, &mut text, flow, worker)?;
    }
    Ok(text)
}

#[test]
fn workers_know_their_senders_and_receivers(rt: HostRuntime) -> Result<(), Fail> {
    let alloc = rt.alloc();
    let flow = read_flow(alloc, WORKFLOW.as_bytes())?;
    expect_text(
        links(alloc, &flow)?,
        "[] > [3]; [] > [2]; [1] > [3]; [0, 2] > [4]; [3] > []; ",
    )
}
