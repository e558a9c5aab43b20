//! The number of active elements that are true.
ghost use Rattle.std.specs.Prelude.{◌≡◌, ◌*◌, ◌≤◌, if◌then◌else◌, length};
ghost use Rattle.vector_elements.specs.Elements.{active_of};
ghost use Rattle.vector_elements.specs.Numbers.{bytes_in};
ghost use Rattle.predicates.specs.Flags.{governed};
ghost use Rattle.predicates.specs.Loops.{true_count};

use vector_elements::{Size, bit};

/// 1 for a truth value that holds, and 0 for one that does not.
#[inline(always)]
fn one_where(holds: bool) -> u64
    ensures value { result ≡ (if holds then 1 else 0) }
    ensures small { result ≤ 1 }
{
    u64::from(holds)
}

/// How many elements of `pn` are true where `pg` is active. Source: DDI 0487, C8.2, CNTP.
pub fn active_count(size: Size, pg: &[u8], pn: &[u8]) -> u64
    requires same { length pn.now ≡ length pg.now }
    requires small { length pg.now ≤ 32 }
    ensures { result ≡ true_count
        (governed (active_of (bytes_in size) pg.now) (active_of (bytes_in size) pn.now)) }
{
    let width = size.bytes();
    let mut count = 0;
    for i in 0..8 * pg.len() / width {
        let on = bit(pg, width * i);
        let holds = bit(pn, width * i);
        count += one_where(on & holds);
    }
    count
}
