//! Which worker gets a row, where rows with equal keys go to one worker. Over `Row` and `Cols`.

ghost use Rattle.std.specs.Prelude.{◌≡◌, ◌<◌, ◌++◌, ◌∷◌, [], IfOk, OnOk, fold};
ghost use Rattle.std.specs.List.{filter_map, flat_map};
ghost use Rattle.amber_rows.specs.Lists.{nth};
ghost use Rattle.amber_rows.specs.Routing.{fnv_step, key_bytes_of, key_piece, route_of};

use crate::column::Cols;
use crate::row::Row;
use crate::value::Value;
use itoa::Buffer;
use std::alloc::{AllocError, Global};

// The numbers of FNV-1a with 64 bits.
const FNV_OFFSET: u64 = 14_695_981_039_346_656_037;

const FNV_PRIME: u64 = 1_099_511_628_211;

// Appends the bytes of a cell.
fn append_piece(bytes: &mut Vec<u8>, cell: &Value) -> Result<(), AllocError>
    ensures { OnOk result (bytes.new.items ≡ bytes.old.items ++ key_piece cell.now) }
{
    let mut buffer = Buffer::new();
    match cell {
        Value::Int(number) => {
            bytes.push(b'i')?;
            bytes.extend_from_slice(buffer.format(*number).as_bytes())?;
        }
        Value::Text(text) => {
            bytes.push(b't')?;
            bytes.extend_from_slice(buffer.format(text.len()).as_bytes())?;
            bytes.push(b':')?;
            bytes.extend_from_slice(text.get().as_bytes())?;
        }
    }
    bytes.push(b';')?;
    Ok(())
}

// Appends the bytes of the cell of a column, if there is one.
fn append_column(bytes: &mut Vec<u8>, row: &Row, column: u32) -> Result<(), AllocError>
    ensures { OnOk result (bytes.new.items
        ≡ bytes.old.items ++ flat_map key_piece (filter_map (nth row.now) (column ∷ []))) }
{
    match row.cell(column) {
        None => Ok(()),
        Some(cell) => append_piece(bytes, cell),
    }
}

/// The bytes of a row's key: those of the cells of these columns, one after the other. Keys that differ in a
/// kind or a text differ in their bytes.
pub fn key_bytes(alloc: Global, row: &Row, keys: &Cols) -> Result<Vec<u8>, AllocError>
    ensures { IfOk result (λ bytes. bytes.items ≡ key_bytes_of keys.now row.now) }
{
    let mut bytes = Vec::new(alloc);
    let columns = keys.get();
    for column in columns {
        append_column(&mut bytes, row, *column)?;
    }
    Ok(bytes)
}

// The hash with one more byte.
fn hash_byte(hash: u64, byte: u8) -> u64
    ensures { result ≡ fnv_step hash byte }
{
    (hash ^ u64::from(byte)).wrapping_mul(FNV_PRIME)
}

// The hash with these bytes added.
fn hash_bytes(before: u64, bytes: &[u8]) -> u64
    ensures { result ≡ fold fnv_step before bytes.now }
{
    let mut hash = before;
    for byte in bytes {
        hash = hash_byte(hash, *byte);
    }
    hash
}

// The hash with the bytes of a cell added.
fn hash_piece(hash: u64, cell: &Value) -> u64
    ensures { result ≡ fold fnv_step hash (key_piece cell.now) }
{
    let mut buffer = Buffer::new();
    match cell {
        Value::Int(number) => {
            let begun = hash_byte(hash, b'i');
            hash_byte(hash_bytes(begun, buffer.format(*number).as_bytes()), b';')
        }
        Value::Text(text) => {
            let begun = hash_byte(hash, b't');
            let counted = hash_bytes(begun, buffer.format(text.len()).as_bytes());
            let parted = hash_byte(counted, b':');
            hash_byte(hash_bytes(parted, text.get().as_bytes()), b';')
        }
    }
}

// The hash with the bytes of the cell of a column added, if there is one.
fn hash_column(hash: u64, row: &Row, column: u32) -> u64
    ensures { result
        ≡ fold fnv_step hash (flat_map key_piece (filter_map (nth row.now) (column ∷ []))) }
{
    match row.cell(column) {
        None => hash,
        Some(cell) => hash_piece(hash, cell),
    }
}

/// Of this number of workers, the one to which a key with these bytes goes.
pub fn route(key: &[u8], workers: u32) -> u32
    requires { 0 < workers }
    ensures { result ≡ route_of key.now workers }
{
    (hash_bytes(FNV_OFFSET, key) % u64::from(workers)) as u32
}

/// Of this number of workers, the one to which a row goes by its key in these columns. The bytes of the key
/// are not kept.
pub fn route_row(row: &Row, keys: &Cols, workers: u32) -> u32
    requires { 0 < workers }
    ensures { result ≡ route_of (key_bytes_of keys.now row.now) workers }
{
    let mut hash = FNV_OFFSET;
    let columns = keys.get();
    for column in columns {
        hash = hash_column(hash, row, *column);
    }
    (hash % u64::from(workers)) as u32
}
