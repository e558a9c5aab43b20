//! Elements as their bytes.
ghost use Rattle.std.specs.Prelude.{◌≡◌, ◌+◌, ◌*◌, ◌≤◌, length};
ghost use Rattle.tile_ops.specs.Slices.{element_bytes, with_element};

/// Copies an element.
#[inline(always)]
fn copy_run(e: usize, from: &[u8], i: usize, into: &mut [u8], k: usize)
    requires from { i * e + e ≤ length from.now }
    requires into { k * e + e ≤ length into.old }
    ensures { into.new ≡ with_element e into.old k (element_bytes e from.now i) }
{
    into[k * e..k * e + e].copy_from_slice(&from[i * e..i * e + e]);
}

/// Copies element `i` of some bytes to element `k` of others, each of `e` bytes; a match of the sizes makes
/// the copy a move of one word.
#[inline(always)]
pub(crate) fn copy_element(e: usize, from: &[u8], i: usize, into: &mut [u8], k: usize)
    requires from { i * e + e ≤ length from.now }
    requires into { k * e + e ≤ length into.old }
    ensures { into.new ≡ with_element e into.old k (element_bytes e from.now i) }
{
    match e {
        1 => copy_run(1, from, i, into, k),
        2 => copy_run(2, from, i, into, k),
        4 => copy_run(4, from, i, into, k),
        8 => copy_run(8, from, i, into, k),
        16 => copy_run(16, from, i, into, k),
        _ => copy_run(e, from, i, into, k),
    }
}
