//! The array, a row of bytes for each vector.
ghost use Rattle.std.specs.Prelude.{◌≡◌, ◌<◌, ◌≤◌, ◌%◌, [], length, slice_index_or, IfOk};
ghost use Rattle.std.specs.Borrow.{sem};
ghost use Rattle.sve_vectors.specs.Lengths.{vector_bytes};
ghost use Rattle.za_array.specs.Array.{zero_array, IsSquare};
ghost use Rattle.za_array.specs.Lending.{LendsArrayVector};

use sm_types::{Memory, VecLen};
use std::alloc::Global;
use std::marker::Model;
use sve_vectors::{clear_rows, zero_rows};

/// The ZA array: S vectors of S bytes, S being SVL in bytes. Source: DDI 0487, B1.4.
#[derive(Drop)]
pub struct Za {
    svl: VecLen,
    /// A row of S bytes for each vector.
    rows: Vec<Vec<u8>>,
}

impl Model for Za {
    ghost use Rattle.sve_vectors.specs.Lengths.{vector_bytes};
    ghost use Rattle.sve_vectors.specs.Layout.{items_of};
    ghost use Rattle.za_array.specs.Array.{ArrayState, IsSquare};
    ghost use Rattle.za_array.specs.Layout.{state_of_array};

    ghost Value = { ArrayState };

    ghost view = { λ z. state_of_array z.svl (items_of z.rows.items) };

    ghost invariant = { λ z. IsSquare (vector_bytes z.svl) (items_of z.rows.items) };
}

impl Za {
    /// An array of zeros. `Memory` is want of memory.
    pub fn new(alloc: Global, svl: VecLen) -> Result<Za, Memory>
        ensures { IfOk result (λ z. z ≡ zero_array svl) }
    {
        match zero_rows(alloc, svl.bytes(), svl.bytes()) {
            Ok(rows) => Ok(Za { svl, rows }),
            Err(_) => Err(Memory),
        }
    }

    /// The streaming vector length.
    #[inline]
    pub fn svl(&self) -> VecLen
        ensures { result ≡ self.now.svl }
    {
        self.svl
    }

    /// S: how many vectors there are, and how many bytes each has.
    #[inline]
    pub fn size(&self) -> usize
        ensures value { result ≡ vector_bytes self.now.svl }
        ensures square { IsSquare (vector_bytes self.now.svl) self.now.vectors }
        ensures small { vector_bytes self.now.svl ≤ 256 }
        ensures whole { vector_bytes self.now.svl % 16 ≡ 0 }
    {
        self.svl.bytes()
    }

    /// ZA[`n`], of S bytes, the lowest first.
    #[inline]
    pub fn vector(&self, n: usize) -> &[u8]
        requires { n < vector_bytes self.now.svl }
        ensures value { result.now ≡ slice_index_or self.now.vectors n [] }
        ensures long { length result.now ≡ vector_bytes self.now.svl }
    {
        self.rows[n].as_slice()
    }

    /// ZA[`n`], of S bytes, to be written.
    #[inline]
    pub fn vector_mut(&mut self, n: usize) -> &mut [u8]
        requires { n < vector_bytes self.old.svl }
        ensures* writes_back { sem 𝓛 (LendsArrayVector self.entry n result) }
        ensures value { result.now ≡ slice_index_or self.old.vectors n [] }
        ensures long { length result.now ≡ vector_bytes self.old.svl }
    {
        let size = self.svl.bytes();
        self.rows[n].slice_mut(..size)
    }

    /// Writes zero to each byte of each vector.
    pub fn clear(&mut self)
        ensures { self.new ≡ zero_array self.old.svl }
    {
        let size = self.svl.bytes();
        clear_rows(self.rows.as_mut_slice(), size);
    }
}
