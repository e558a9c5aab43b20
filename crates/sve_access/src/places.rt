//! The bytes of an access by their addresses, in the order of their transfer.
ghost use Rattle.std.specs.Prelude.{◌≡◌, ℕ, ◌≤◌, ◌^◌, ◌<◌, Bool, List};
ghost use Rattle.std.specs.List.{find};
ghost use Rattle.std.specs.Option.{option_or};
ghost use Rattle.paged_memory.specs.Memory.{run_of};

/// A check of one byte by its address.
pub trait Check {
    /// Whether the byte at an address fails it.
    ghost fails: { Self → ℕ → Bool };

    /// The first of so many bytes from an address on that fails it.
    fn first(&self, address: u64, size: u64) -> Option<u64>
        requires some { 1 ≤ size }
        requires short { size ≤ 4096 }
        ensures { result ≡ find (fails self.now) (run_of address size) };
}

/// The bytes of an access.
pub trait Bytes {
    /// Whether they may be asked about.
    ghost can: { Self → Type 0 };

    /// Their addresses, in the order of their transfer.
    ghost addresses: { Self → List ℕ };

    /// The first of them that fails a check.
    fn first_failing<C: Check>(&self, check: &C) -> Option<u64>
        requires { can self.now }
        ensures { result ≡ find (C.fails check.now) (addresses self.now) };
}

/// The first of two, if there is one.
#[inline]
pub fn first_of<T>(a: Option<T>, b: Option<T>) -> Option<T>
where
    T: Copy,
    ensures { result ≡ option_or a b }
{
    match a {
        Some(found) => Some(found),
        None => b,
    }
}

/// Consecutive bytes.
#[derive(Clone, Copy)]
pub struct Run {
    pub address: u64,
    /// In bytes, 1 to 4096.
    pub size: u64,
}

impl Bytes for Run {
    ghost can = { λ s. (1 ≤ s.size) × (s.size ≤ 4096) };

    ghost addresses = { λ s. run_of s.address s.size };

    #[inline]
    fn first_failing<C: Check>(&self, check: &C) -> Option<u64> {
        check.first(self.address, self.size)
    }
}
