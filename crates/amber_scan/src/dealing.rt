//! Cuts a file into its records and deals them to workers. Over `Share` of `share`, and `Records` of `amber_cut`.

ghost use Rattle.std.specs.Prelude.{◌≡◌, ◌<◌, ◌≤◌, ◌^◌, All, ℕ, false, true, length, vec_len, slice_index_or, IfErr, IfOk};
ghost use Rattle.amber_rows.specs.Record.{has_header};
ghost use Rattle.amber_rows.specs.Shares.{share_of};
ghost use Rattle.amber_scan.specs.Shares.{ShareState, scanned_number, scanned_records};
ghost use Rattle.amber_scan.specs.declared.dealing.ScanErr.TheVariants as scan_err;

use crate::share::Share;
use amber_cut::Records;
use amber_rows::{FileBytes, Schema, has_header};
use std::alloc::{AllocError, Global};
use std::sync::Arc;
use std::thread::Threads;

/// Why a file cannot be dealt.
#[derive(Clone, Copy, Debug, PartialEq, Eq)]
pub enum ScanErr {
    /// The file does not begin with the names of its columns.
    Header,
    /// Memory ran out.
    NoMemory,
}

impl From<AllocError> for ScanErr {
    ghost from_gives = { λ _ e. e ≡ scan_err.NoMemory };

    fn from(_error: AllocError) -> ScanErr {
        ScanErr::NoMemory
    }
}

/// Deals the records of a file, as `deal` does, of which it is known that it begins with the names of its columns.
pub fn deal_checked<R: Threads + Sync>(
    rt: &R,
    alloc: Global,
    file: &FileBytes,
    schema: &Schema,
    workers: u32,
    threads: u32,
) -> Result<Vec<Share>, AllocError>
    requires some { 1 ≤ workers }
    requires few { workers ≤ 16 }
    requires columns { length schema.now < 2 ^ 32 }
    requires header { has_header schema.now file.now ≡ true }
    ensures one_each { IfOk result (λ shares. vec_len shares ≡ workers) }
    ensures shares { IfOk result (λ shares. (worker : ℕ) (d : ShareState) → worker < workers
        → (slice_index_or shares.items worker d).left
        ≡ share_of scanned_number workers worker (scanned_records schema.now file.now)) }
    ensures columns { IfOk result (λ shares.
        All (λ share. share.columns ≡ schema.now) shares.items) }
{
    let records = Arc::new(alloc, Records::new(rt, alloc, file, threads)?)?;
    let mut shares = Vec::with_capacity(alloc, workers as usize)?;
    'workers: for worker in 0..workers {
        let share = Share::new(alloc, records.clone()?, schema.clone()?, worker, workers);
        shares.push(share)?;
    }
    Ok(shares)
}

/// Cuts a file into its records and deals them to 1 to 16 workers: of W workers, worker w, from 0, gets the records
/// w + 1, w + 1 + W, and so on, each as its row or its fault.
///
/// The file is comma-separated text with double quotes, as RFC 4180 has it. Its first record must be the names of the
/// columns, else the answer is `Header`. The shares stand in the order of the workers. The beginnings of the file's
/// lines are noted on so many threads, 0 counted as 1; the shares are the same for any.
pub fn deal<R: Threads + Sync>(
    rt: &R,
    alloc: Global,
    file: &FileBytes,
    schema: &Schema,
    workers: u32,
    threads: u32,
) -> Result<Vec<Share>, ScanErr>
    requires some { 1 ≤ workers }
    requires few { workers ≤ 16 }
    requires columns { length schema.now < 2 ^ 32 }
    ensures one_each { IfOk result (λ shares. vec_len shares ≡ workers) }
    ensures shares { IfOk result (λ shares. (worker : ℕ) (d : ShareState) → worker < workers
        → (slice_index_or shares.items worker d).left
        ≡ share_of scanned_number workers worker (scanned_records schema.now file.now)) }
    ensures columns { IfOk result (λ shares.
        All (λ share. share.columns ≡ schema.now) shares.items) }
    ensures headed { IfOk result (λ _. has_header schema.now file.now ≡ true) }
    ensures header { IfErr result
        (λ why. why ≡ ScanErr.Header → has_header schema.now file.now ≡ false) }
{
    let headed = has_header(alloc, schema, file.get())?;
    if !headed {
        return Err(ScanErr::Header);
    }
    Ok(deal_checked(rt, alloc, file, schema, workers, threads)?)
}
