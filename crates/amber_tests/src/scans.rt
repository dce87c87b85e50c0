//! Scans dealt to workers. Tests `amber_scan`.

ghost use Rattle.std.specs.Prelude.{◌≤◌};

use crate::expected::expect_text;
use crate::written::{append_typed, row, two_columns};
use amber_rows::{Bytes, FileBytes, Row};
use amber_scan::{NoMemory, ScanErr, Scanned, Share, deal};
use std::alloc::Global;
use std::test::Fail;
use std::thread::Threads;

// A record's number, and its cells or its fault.
fn append_record(alloc: Global, text: &mut String, one: &Scanned) -> Result<(), NoMemory> {
    text.push_str(&format!(in alloc; "{}: ", one.number)?)?;
    append_typed(alloc, text, &one.what)?;
    text.push_str("; ")
}

// The next record of a share.
fn append_next(alloc: Global, text: &mut String, share: &mut Share) -> Result<(), NoMemory> {
    match share.next(None)? {
        Some(one) => append_record(alloc, text, &one),
        None => text.push_str("none; "),
    }
}

// Takes all that is left of a share.
fn taken(alloc: Global, share: &mut Share) -> Result<String, NoMemory> {
    let mut text = String::new(alloc);
    for _ in 0..share.left() {
        append_next(alloc, &mut text, share)?;
    }
    Ok(text)
}

// All that is left of these shares, with a `|` after each.
fn append_shares(alloc: Global, text: &mut String, shares: Vec<Share>) -> Result<(), NoMemory> {
    for mut share in shares {
        text.push_str(&taken(alloc, &mut share)?)?;
        text.push_str("| ")?;
    }
    Ok(())
}

// A file with this text.
fn file_of(alloc: Global, text: &str) -> Result<FileBytes, NoMemory> {
    FileBytes::new(alloc, Bytes::new(Vec::from_slice(alloc, text.as_bytes())?))
}

// The shares of a file.
fn dealt<R: Threads + Sync>(
    rt: &R,
    alloc: Global,
    file: &str,
    workers: u32,
) -> Result<String, NoMemory>
    requires some { 1 ≤ workers }
    requires few { workers ≤ 16 }
{
    let schema = two_columns(alloc)?;
    let mut text = String::new(alloc);
    match deal(rt, alloc, &file_of(alloc, file)?, &schema, workers, 2) {
        Ok(shares) => append_shares(alloc, &mut text, shares)?,
        Err(ScanErr::Header) => text.push_str("header")?,
        Err(ScanErr::NoMemory) => text.push_str("no memory")?,
    }
    Ok(text)
}

const SEVEN: &str = "number,word\r\n1,a\r\nx,b\r\n3,c\r\n4\r\n5,\"e,e\"\r\n6,f\r\n7,g\r\n";

#[test]
fn workers_take_turns_at_rows_and_faults(rt: HostRuntime) -> Result<(), Fail> {
    let alloc = rt.alloc();
    expect_text(
        dealt(&rt, alloc, SEVEN, 3)?,
        "1: 1 'a ; 4: width ; 7: 7 'g ; | 2: int 1 ; 5: 5 'e,e ; | 3: 3 'c ; 6: 6 'f ; | ",
    )?;
    expect_text(
        dealt(&rt, alloc, SEVEN, 1)?,
        "1: 1 'a ; 2: int 1 ; 3: 3 'c ; 4: width ; 5: 5 'e,e ; 6: 6 'f ; 7: 7 'g ; | ",
    )?;
    expect_text(dealt(&rt, alloc, "number,word\n8,z", 2)?, "1: 8 'z ; | | ")?;
    expect_text(dealt(&rt, alloc, "number,word\r\n", 4)?, "| | | | ")?;
    expect_text(dealt(&rt, alloc, "1,a\n", 2)?, "header")
}

// Whether a copy of a share has what is left of it.
fn copies(alloc: Global, share: &mut Share) -> Result<bool, NoMemory> {
    let mut copy = share.clone()?;
    let same = copy.left() == share.left();
    let text = taken(alloc, &mut copy)?;
    let of_share = taken(alloc, share)?;
    Ok(same && text == of_share && share.next(None)?.is_none() && copy.left() == 0)
}

// Takes the next record of a share. Whether one less is left.
fn takes_one(share: &mut Share) -> Result<bool, NoMemory> {
    let before = share.left();
    let found = share.next(None)?.is_some();
    Ok(found && share.left() + 1 == before)
}

#[test]
fn a_copy_has_what_is_left(rt: HostRuntime) -> Result<(), Fail> {
    let alloc = rt.alloc();
    let schema = two_columns(alloc)?;
    let Ok(shares) = deal(&rt, alloc, &file_of(alloc, SEVEN)?, &schema, 3, 2) else {
        return Err(Fail::from(NoMemory));
    };
    for mut share in shares {
        assert!(rt; takes_one(&mut share)?);
        assert!(rt; copies(alloc, &mut share)?);
    }
    Ok(())
}

#[test]
fn records_that_were_read_ahead_are_left_as_before(rt: HostRuntime) -> Result<(), Fail> {
    let alloc = rt.alloc();
    let schema = two_columns(alloc)?;
    for count in [0, 1, 2, 9] {
        let Ok(shares) = deal(&rt, alloc, &file_of(alloc, SEVEN)?, &schema, 3, 2) else {
            return Err(Fail::from(NoMemory));
        };
        for mut share in shares {
            let mut ahead = share.clone()?;
            ahead.read_ahead(count)?;
            assert!(rt; ahead.left() == share.left());
            assert!(rt; taken(alloc, &mut ahead)? == taken(alloc, &mut share)?);
        }
    }
    Ok(())
}

// The next record of a share, typed over this row. The row that it gives comes back.
fn append_over(
    alloc: Global,
    text: &mut String,
    share: &mut Share,
    used: Option<Row>,
) -> Result<Option<Row>, NoMemory> {
    let Some(one) = share.next(used)? else {
        return Ok(None);
    };
    append_record(alloc, text, &one)?;
    match one.what {
        Ok(row) => Ok(Some(row)),
        Err(_) => Ok(None),
    }
}

// Takes all that is left of a share, each record over the row of the one before, the first over this row.
fn taken_over(alloc: Global, share: &mut Share, first: Row) -> Result<String, NoMemory> {
    let mut text = String::new(alloc);
    let mut used = Some(first);
    for _ in 0..share.left() {
        used = append_over(alloc, &mut text, share, used)?;
    }
    Ok(text)
}

const LONG_WORDS: &str =
    "number,word\r\n1,a word of more than twenty-two bytes\r\n2,b\r\n3,another word of so many \
    bytes\r\n4,\r\n";

#[test]
fn a_record_typed_over_another_row_is_typed_as_anew(rt: HostRuntime) -> Result<(), Fail> {
    let alloc = rt.alloc();
    let schema = two_columns(alloc)?;
    let used = [
        "7 'a-text-that-stood-here-before",
        "'a-text-that-stood-here-before 7",
        "1 2 3",
    ];
    for file in [SEVEN, LONG_WORDS] {
        let Ok(shares) = deal(&rt, alloc, &file_of(alloc, file)?, &schema, 1, 2) else {
            return Err(Fail::from(NoMemory));
        };
        for share in &shares {
            for cells in used {
                let over = taken_over(alloc, &mut share.clone()?, row(alloc, cells)?)?;
                assert!(rt; over == taken(alloc, &mut share.clone()?)?);
            }
        }
    }
    Ok(())
}

// The second record of a share, and then each record, of which the first two were read ahead.
fn looked_ahead(alloc: Global, share: &mut Share) -> Result<String, NoMemory> {
    let mut text = String::new(alloc);
    share.read_ahead(2)?;
    if share.left() < 2 {
        return Err(NoMemory);
    }
    append_record(alloc, &mut text, share.at(1))?;
    append_record(alloc, &mut text, &share.take_ready())?;
    append_record(alloc, &mut text, &share.take_ready())?;
    append_next(alloc, &mut text, share)?;
    Ok(text)
}

#[test]
fn records_that_were_read_ahead_are_looked_at_and_taken(rt: HostRuntime) -> Result<(), Fail> {
    let alloc = rt.alloc();
    let schema = two_columns(alloc)?;
    let Ok(shares) = deal(&rt, alloc, &file_of(alloc, SEVEN)?, &schema, 2, 2) else {
        return Err(Fail::from(NoMemory));
    };
    let mut text = String::new(alloc);
    for mut share in shares {
        text.push_str(&looked_ahead(alloc, &mut share)?)?;
        text.push_str("| ")?;
    }
    expect_text(
        text,
        "3: 3 'c ; 1: 1 'a ; 3: 3 'c ; 5: 5 'e,e ; | 4: width ; 2: int 1 ; 4: width ; 6: 6 'f ; | ",
    )
}
