//! The records of all scans, dealt to the workers. Over `deal_checked` of `amber_scan`, and `shared_file_after`
//! of `amber_meaning`.

ghost use Rattle.std.specs.Prelude.{◌≡◌, ◌+◌, ◌++◌, ◌<◌, ◌≤◌, ◌^◌, ℕ, Some, None};
ghost use Rattle.std.specs.Prelude.{[], IfOk, OnOk, length, map, option_map, replicate, true, unwrap_or};
ghost use Rattle.amber_meaning.specs.Plain.{records_of, wrong_header};
ghost use Rattle.amber_meaning.specs.ScanFiles.{is_headed};
ghost use Rattle.amber_dataflow.specs.Start.{AreSharesDealt, IsDealtShare, share_of_worker};

use amber_meaning::shared_file_after;
use amber_rows::{FileBytes, Files, Flow, Operator};
use amber_scan::{Share, deal_checked};
use std::alloc::{AllocError, Global};
use std::thread::Threads;

// This many workers more, who are given nothing.
fn push_none(workers: u32, shares: &mut Vec<Option<Share>>) -> Result<(), AllocError>
    ensures { OnOk result (shares.new.items ≡ shares.old.items ++ replicate workers None) }
{
    'workers: for _ in 0..workers {
        shares.push(None)?;
    }
    Ok(())
}

// As many workers more as there are shares, each of whom is given one, in their order.
fn push_shares(dealt: Vec<Share>, shares: &mut Vec<Option<Share>>) -> Result<(), AllocError>
    ensures { OnOk result (shares.new.items ≡ shares.old.items ++ map Some dealt.items) }
{
    for share in dealt {
        shares.push(Some(share))?;
    }
    Ok(())
}

// Gives each worker of an operator, which come after the others, its share of the file, if it is a scan; a scan has one.
// On so many threads it is noted where the file's lines begin.
fn deal_operator<R: Threads + Sync>(
    rt: &R,
    alloc: Global,
    operator: &Operator,
    file: Option<&FileBytes>,
    shares: &mut Vec<Option<Share>>,
    threads: u32,
) -> Result<(), AllocError>
    requires some { 0 < operator.now.workers }
    requires few { operator.now.workers ≤ 16 }
    requires columns { length operator.now.schema < 2 ^ 32 }
    requires headed { is_headed operator.now.what operator.now.schema
        (unwrap_or (option_map (λ one. one.now) file) []) ≡ true }
    ensures all { OnOk result
        (length shares.new.items ≡ length shares.old.items + operator.now.workers) }
    ensures before { OnOk result ((k : ℕ) → k < length shares.old.items
        → share_of_worker shares.new.items k ≡ share_of_worker shares.old.items k) }
    ensures dealt { OnOk result ((place : ℕ) → place < operator.now.workers
        → IsDealtShare operator.now (unwrap_or (option_map (λ one. one.now) file.entry) []) place
        (share_of_worker shares.new.items (length shares.old.items + place))) }
{
    if !operator.what.is_scan() {
        return push_none(operator.workers, shares);
    }
    let Some(file) = file else { unreachable!() };
    let dealt = deal_checked(rt, alloc, file, &operator.schema, operator.workers, threads)?;
    push_shares(dealt, shares)
}

// What each worker is given of the files, which were checked: a scan's its share of the records, nobody else
// a share. The files come one after the other; where the lines of one begin is noted on so many threads.
pub(crate) fn deal_all<R: Threads + Sync>(
    rt: &R,
    alloc: Global,
    flow: &Flow,
    files: &Files,
    threads: u32,
) -> Result<Vec<Option<Share>>, AllocError>
    requires headers { wrong_header 1 files.now flow.now ≡ None }
    ensures { IfOk result (λ shares.
        AreSharesDealt flow.now (records_of files.now flow.now) shares.items) }
{
    let operators = flow.get();
    let mut shares = Vec::new(alloc);
    'operators: for before in 0..operators.len() {
        let file = shared_file_after(flow, files, before);
        deal_operator(rt, alloc, &operators[before], file, &mut shares, threads)?;
    }
    Ok(shares)
}
