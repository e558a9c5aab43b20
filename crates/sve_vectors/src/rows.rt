//! Rows of bytes, one for each register.
ghost use Rattle.std.specs.Prelude.{◌≡◌, ℕ, ◌<◌, ◌≤◌, [], length, replicate, take, slice_index_or, IfOk};
ghost use Rattle.sve_vectors.specs.Layout.{items_of, ClearedRows};

use sm_types::Memory;
use std::alloc::{AllocError, Global};

/// So many zero bytes.
pub(crate) fn zero_row(alloc: Global, size: usize) -> Result<Vec<u8>, AllocError>
    ensures { IfOk result (λ row. row.items ≡ replicate size 0) }
{
    vec![in alloc; 0u8; size]
}

/// So many rows of so many zero bytes each.
pub fn zero_rows(alloc: Global, count: usize, size: usize) -> Result<Vec<Vec<u8>>, AllocError>
    ensures { IfOk result (λ rows. items_of rows.items ≡ replicate count (replicate size 0)) }
{
    let mut rows: Vec<Vec<u8>> = Vec::new(alloc);
    for i in 0..count {
        let _number = i;
        rows.push(zero_row(alloc, size)?)?;
    }
    Ok(rows)
}

/// The first bytes of a row.
#[inline]
pub(crate) fn front(rows: &[Vec<u8>], n: usize, size: usize) -> &[u8]
    requires row { n < length rows.now }
    requires room { size ≤ length (slice_index_or (items_of rows.now) n []) }
    ensures value { result.now ≡ take size (slice_index_or (items_of rows.now) n []) }
    ensures long { length result.now ≡ size }
{
    &rows[n][..size]
}

/// Writes zero to the first bytes of a row.
pub(crate) fn clear(row: &mut [u8], size: usize)
    requires { size ≤ length row.old }
    ensures { take size row.new ≡ replicate size 0 }
{
    for i in 0..size {
        row[i] = 0;
    }
}

/// Writes zero to the first bytes of each row.
pub fn clear_rows(rows: &mut [Vec<u8>], size: usize)
    requires { (k : ℕ) → k < length rows.old → size ≤ length (slice_index_or (items_of rows.old) k []) }
    ensures { ClearedRows size (items_of rows.old) (items_of rows.new) }
{
    for i in 0..rows.len() {
        clear(rows[i].as_mut_slice(), size);
    }
}
