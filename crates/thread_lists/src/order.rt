//! The order of threads.
ghost use Rattle.std.specs.Prelude.{◌≡◌, ℕ, IsPermutation};
ghost use Rattle.std.specs.List.{range_with_len};
ghost use Rattle.thread_lists.specs.Counts.{AreOnceEach};
ghost use Rattle.thread_lists.specs.Numbers.{numbers_of};

use kernel_contexts::Whole;
use shared_region::Port;

/// Puts some contexts in the order of their threads' numbers: where each number below a bound is there once,
/// and no other, that of number 0 is the first one, that of number 1 the second one, and so on.
pub fn sort_by_number<P: Port>(threads: &mut Vec<Whole<P>>)
    ensures same { IsPermutation threads.old.items threads.new.items }
    ensures order { (bound : ℕ) → AreOnceEach bound (numbers_of threads.old.items)
        → numbers_of threads.new.items ≡ range_with_len 0 bound }
{
    threads.sort_unstable_by_key(|whole| whole.context.thread());
}
