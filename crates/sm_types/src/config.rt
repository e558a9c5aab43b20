//! The options of a run.
ghost use Rattle.std.specs.Prelude.{◌≤◌};

use crate::length::VecLen;
use crate::numbers::{Numbers, are_cores, are_threads, is_budget, is_kernel, is_slice, length_of};
use crate::version::Version;

/// The options of a run. Their numbers are always in the ranges of the command line.
#[derive(Clone, Copy, Debug, PartialEq, Eq)]
pub struct Config {
    /// The vector length outside streaming mode.
    pub vl: VecLen,
    /// The vector length in streaming mode.
    pub svl: VecLen,
    /// Counted instructions between two polls of the pending signals: 1 to 1,000,000.
    pub slice: u32,
    /// Counted instructions after which a thread is stopped: 1 to 4,294,967,295.
    pub budget: u32,
    /// Guest threads: 1 to 32.
    pub threads: u32,
    /// Cores: 1 to 64.
    pub cores: u32,
    /// The kernel's version: 1 or 2.
    pub kernel: u32,
    ghost slice_in_range: { (1 ≤ slice) × (slice ≤ 1000000) },
    ghost budget_in_range: { 1 ≤ budget },
    ghost threads_in_range: { (1 ≤ threads) × (threads ≤ 32) },
    ghost cores_in_range: { (1 ≤ cores) × (cores ≤ 64) },
    ghost kernel_in_range: { (1 ≤ kernel) × (kernel ≤ 2) },
}

impl Config {
    ghost use Rattle.std.specs.Prelude.{◌≡◌, option_map};
    ghost use Rattle.sm_types.specs.Options.{AreDefaults, if_taken, numbers_of, version_of};

    /// The options where none is given.
    pub fn defaults() -> Config
        ensures { AreDefaults result }
    {
        Config {
            vl: VecLen::Bits128,
            svl: VecLen::Bits256,
            slice: 1000,
            budget: 10_000_000,
            threads: 1,
            cores: 1,
            kernel: 2,
        }
    }

    /// The options of those numbers; `None` exactly where one of them is none that its option takes.
    #[tactic(auto, unfolding(crate::specs::Options::are_taken))]
    pub fn of(numbers: &Numbers) -> Option<Config>
        ensures { option_map numbers_of result ≡ if_taken numbers.now }
    {
        let vl = length_of(numbers.vl)?;
        let svl = length_of(numbers.svl)?;
        if is_slice(numbers.slice)
            && is_budget(numbers.budget)
            && are_threads(numbers.threads)
            && are_cores(numbers.cores)
            && is_kernel(numbers.kernel)
        {
            Some(Config {
                vl,
                svl,
                slice: numbers.slice as u32,
                budget: numbers.budget as u32,
                threads: numbers.threads as u32,
                cores: numbers.cores as u32,
                kernel: numbers.kernel as u32,
            })
        } else {
            None
        }
    }

    /// Their numbers.
    pub fn numbers(&self) -> Numbers
        ensures { result ≡ numbers_of self.now }
    {
        Numbers {
            vl: u64::from(self.vl.bits()),
            svl: u64::from(self.svl.bits()),
            slice: u64::from(self.slice),
            budget: u64::from(self.budget),
            threads: u64::from(self.threads),
            cores: u64::from(self.cores),
            kernel: u64::from(self.kernel),
        }
    }

    /// The version of their kernel.
    #[tactic(auto, unfolding(crate::specs::Options::version_of))]
    pub fn version(&self) -> Version
        ensures { result ≡ version_of self.now }
    {
        if self.kernel == 2 {
            Version::Two
        } else {
            Version::One
        }
    }
}
