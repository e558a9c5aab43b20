//! The registers, a row of bytes each.
ghost use Rattle.std.specs.Prelude.{◌≡◌, ℕ, ◌<◌, ◌≤◌, ◌/◌, ◌%◌, [], length, take, false, IfOk};
ghost use Rattle.std.specs.Prelude.{slice_index_or};
ghost use Rattle.std.specs.Borrow.{sem};
ghost use Rattle.sve_vectors.specs.Predicates.{truths_of};
ghost use Rattle.sve_vectors.specs.Registers.{AreOfLength};
ghost use Rattle.sve_vectors.specs.Layout.{room_of};
ghost use Rattle.sve_vectors.specs.State.{length_of, with_streaming, with_vector, zero_state};
ghost use Rattle.sve_vectors.specs.Lending.{LendsVector, LendsPredicate, LendsFfr};

use crate::rows::{clear, clear_rows, front, zero_row, zero_rows};
use sm_types::{Memory, VecLen};
use std::alloc::{AllocError, Global};
use std::marker::Model;
use std::mem;

/// The vector and predicate registers of a guest thread, in and outside Streaming SVE mode.
#[derive(Drop)]
pub struct Vectors {
    vl: VecLen,
    svl: VecLen,
    streaming: bool,
    /// L, in bytes.
    current: usize,
    /// A row for each register, whose first L bytes are the register; in `p` and `ffr` the first L / 8.
    z: Vec<Vec<u8>>,
    p: Vec<Vec<u8>>,
    ffr: Vec<u8>,
    /// A row that no register has, for the next vector that is written as a whole.
    spare: Option<Vec<u8>>,
}

impl Model for Vectors {
    ghost use Rattle.sve_vectors.specs.State.{SveState};
    ghost use Rattle.sve_vectors.specs.Layout.{items_of, state_of_rows, IsLaidOut};

    ghost Value = { SveState };

    ghost view = { λ v. state_of_rows v.vl v.svl v.streaming v.current
        (items_of v.z.items) (items_of v.p.items) v.ffr.items };

    ghost invariant = { λ v. IsLaidOut v.vl v.svl v.streaming v.current
        (items_of v.z.items) (items_of v.p.items) v.ffr.items };
}

impl Vectors {
    /// Registers of zeros, outside Streaming SVE mode. `Memory` is want of memory.
    pub fn new(alloc: Global, vl: VecLen, svl: VecLen) -> Result<Vectors, Memory>
        ensures { IfOk result (λ v. v ≡ zero_state vl svl false) }
    {
        match Vectors::allocate(alloc, vl, svl) {
            Ok(vectors) => Ok(vectors),
            Err(_) => Err(Memory),
        }
    }

    fn allocate(alloc: Global, vl: VecLen, svl: VecLen) -> Result<Vectors, AllocError>
        ensures { IfOk result (λ v. v ≡ zero_state vl svl false) }
    {
        let room = vl.bytes().max(svl.bytes());
        Ok(Vectors {
            vl,
            svl,
            streaming: false,
            current: vl.bytes(),
            z: zero_rows(alloc, 32, room)?,
            p: zero_rows(alloc, 16, room / 8)?,
            ffr: zero_row(alloc, room / 8)?,
            spare: Some(zero_row(alloc, room)?),
        })
    }

    /// VL.
    #[inline]
    pub fn vl(&self) -> VecLen
        ensures { result ≡ self.now.vl }
    {
        self.vl
    }

    /// SVL.
    #[inline]
    pub fn svl(&self) -> VecLen
        ensures { result ≡ self.now.svl }
    {
        self.svl
    }

    /// Makes a row Z`n`'s, and keeps the one that it had.
    #[inline]
    fn swap_row(&mut self, n: u8, row: Vec<u8>)
        requires n { n < 32 }
        requires long { length row.items ≡ room_of self.old.vl self.old.svl }
        ensures { self.new ≡ with_vector self.old n (take (length_of self.old) row.items) }
    {
        let old = mem::replace(&mut self.z[usize::from(n)], row);
        self.spare = Some(old);
    }

    /// PSTATE.SM.
    #[inline]
    pub fn streaming(&self) -> bool
        ensures { result ≡ self.now.streaming }
    {
        self.streaming
    }

    /// L, the bytes of a vector: those of SVL in Streaming SVE mode, else those of VL.
    #[inline]
    pub fn length(&self) -> usize
        ensures value { result ≡ length_of self.now }
        ensures registers { AreOfLength (length_of self.now) self.now.registers }
        ensures small { length_of self.now ≤ 256 }
        ensures whole { length_of self.now % 16 ≡ 0 }
    {
        self.current
    }

    /// Writes PSTATE.SM. A change sets every Z, P and FFR to zero, at the length of the new mode.
    pub fn set_streaming(&mut self, on: bool)
        ensures { self.new ≡ with_streaming self.old on }
    {
        if self.streaming == on {
            return;
        }
        let bytes = if on {
            self.svl.bytes()
        } else {
            self.vl.bytes()
        };
        self.streaming = on;
        self.current = bytes;
        clear_rows(self.z.as_mut_slice(), bytes);
        clear_rows(self.p.as_mut_slice(), bytes / 8);
        clear(self.ffr.as_mut_slice(), bytes / 8);
    }

    /// Z`n`, of L bytes, the lowest first.
    #[inline]
    pub fn z(&self, n: u8) -> &[u8]
        requires { n < 32 }
        ensures value { result.now ≡ slice_index_or self.now.registers.vectors n [] }
        ensures long { length result.now ≡ length_of self.now }
    {
        front(self.z.as_slice(), usize::from(n), self.current)
    }

    /// Z`n`, of L bytes, the lowest first, to be written.
    #[inline]
    pub fn z_mut(&mut self, n: u8) -> &mut [u8]
        requires { n < 32 }
        ensures* writes_back { sem 𝓛 (LendsVector self.entry n result) }
        ensures value { result.now ≡ slice_index_or self.old.registers.vectors n [] }
        ensures long { length result.now ≡ length_of self.old }
    {
        let bytes = self.current;
        self.z[usize::from(n)].slice_mut(..bytes)
    }

    /// A row for a vector that is to be written as a whole, if there is one: some bytes, mostly L or more.
    #[inline]
    pub fn take_spare(&mut self) -> Option<Vec<u8>>
        ensures { self.new ≡ self.old }
    {
        self.spare.take()
    }

    /// Makes the first L bytes of a row Z`n`; mostly the row itself becomes the register's, and the row that
    /// it had is the spare one.
    #[inline]
    pub fn put_z(&mut self, n: u8, row: Vec<u8>)
        requires n { n < 32 }
        requires long { length_of self.old ≤ length row.items }
        ensures { self.new ≡ with_vector self.old n (take (length_of self.old) row.items) }
    {
        if row.len() == self.z[usize::from(n)].len() {
            self.swap_row(n, row);
        } else {
            let bytes = self.current;
            self.z_mut(n).copy_from_slice(&row[..bytes]);
        }
    }

    /// P`n`, of L / 8 bytes: bit i % 8 of byte i / 8 is for byte i of a vector.
    #[inline]
    pub fn p(&self, n: u8) -> &[u8]
        requires { n < 16 }
        ensures value { truths_of result.now ≡ slice_index_or self.now.registers.predicates n [] }
        ensures long { length result.now ≡ length_of self.now / 8 }
    {
        front(self.p.as_slice(), usize::from(n), self.current / 8)
    }

    /// P`n`, of L / 8 bytes, to be written.
    #[inline]
    pub fn p_mut(&mut self, n: u8) -> &mut [u8]
        requires { n < 16 }
        ensures* writes_back { sem 𝓛 (LendsPredicate self.entry n result) }
        ensures value { truths_of result.now ≡ slice_index_or self.old.registers.predicates n [] }
        ensures long { length result.now ≡ length_of self.old / 8 }
    {
        let bytes = self.current / 8;
        self.p[usize::from(n)].slice_mut(..bytes)
    }

    /// FFR, of L / 8 bytes.
    #[inline]
    pub fn ffr(&self) -> &[u8]
        ensures value { truths_of result.now ≡ self.now.registers.ffr }
        ensures long { length result.now ≡ length_of self.now / 8 }
    {
        &self.ffr[..self.current / 8]
    }

    /// FFR, of L / 8 bytes, to be written.
    #[inline]
    pub fn ffr_mut(&mut self) -> &mut [u8]
        ensures* writes_back { sem 𝓛 (LendsFfr self.entry result) }
        ensures value { truths_of result.now ≡ self.old.registers.ffr }
        ensures long { length result.now ≡ length_of self.old / 8 }
    {
        let bytes = self.current / 8;
        self.ffr.slice_mut(..bytes)
    }
}
