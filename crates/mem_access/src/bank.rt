//! The vectors and the array that are executed on.
ghost use Rattle.std.specs.Prelude.{◌≡◌, None, IfOk, false};
ghost use Rattle.sve_vectors.specs.State.{zero_state};
ghost use Rattle.za_array.specs.Array.{zero_array};

use sm_types::{Memory, VecLen};
use std::alloc::Global;
use sve_vectors::Vectors;
use za_array::Za;

/// The vectors, predicates, FFR and ZA that a thread's instructions read and write, both at one SVL, and the
/// number of that thread where they are not its own save area.
#[derive(Drop)]
pub struct Bank {
    pub vectors: Vectors,
    pub za: Za,
    owner: Option<u32>,
    pub ghost one_length: { za.svl ≡ vectors.svl },
}

impl Bank {
    /// Registers and an array of zeros, outside Streaming SVE mode, with no owner. `Memory` is want of
    /// memory.
    pub fn new(alloc: Global, vl: VecLen, svl: VecLen) -> Result<Bank, Memory>
        ensures vectors { IfOk result (λ b. b.vectors ≡ zero_state vl svl false) }
        ensures za { IfOk result (λ b. b.za ≡ zero_array svl) }
        ensures owner { IfOk result (λ b. b.owner ≡ None) }
    {
        let vectors = Vectors::new(alloc, vl, svl)?;
        let za = Za::new(alloc, svl)?;
        Ok(Bank {
            vectors,
            za,
            owner: None,
        })
    }

    /// The number of the thread whose registers they are, if one owns them.
    pub fn owner(&self) -> Option<u32>
        ensures { result ≡ self.now.owner }
    {
        self.owner
    }

    /// Makes a thread the owner, or none; no register and nothing of the array changes.
    pub fn set_owner(&mut self, owner: Option<u32>)
        ensures owner { self.new.owner ≡ owner }
        ensures vectors { self.new.vectors ≡ self.old.vectors }
        ensures za { self.new.za ≡ self.old.za }
    {
        self.owner = owner;
    }
}
