//! Changes that are governed by the mask of a predicate.
ghost use Rattle.std.specs.Prelude.{◌≡◌, ◌+◌, ◌*◌, ◌<◌, ◌≤◌, ◌==◌, length, not, slice_index, if◌then◌else◌};
ghost use Rattle.vector_elements.specs.Numbers.{bytes_in};

use crate::loops::Change;
use crate::mask::is_marked;
use crate::size::Size;

/// A change of the active elements, where the others keep their value.
#[derive(Clone, Copy)]
pub struct Merging<'a, C> {
    pub change: &'a C,
    pub mask: &'a [u8],
}

impl<'a, C: Change> Change for Merging<'a, C> {
    ghost can = { λ s size i.
        C.can s.change.now size i × (bytes_in size * i + bytes_in size ≤ length s.mask.now) };

    ghost gives = { λ s size i old.
        let marked = not (slice_index s.mask.now (bytes_in size * i) == 0) in
        if marked then C.gives s.change.now size i old else old };

    #[inline(always)]
    fn apply(&self, size: Size, place: usize, old: u64) -> u64 {
        let value = self.change.apply(size, place, old);
        if is_marked(self.mask, size, place) {
            value
        } else {
            old
        }
    }
}

/// A change of the active elements, where the others become zero.
#[derive(Clone, Copy)]
pub struct Zeroing<'a, C> {
    pub change: &'a C,
    pub mask: &'a [u8],
}

impl<'a, C: Change> Change for Zeroing<'a, C> {
    ghost can = { λ s size i.
        C.can s.change.now size i × (bytes_in size * i + bytes_in size ≤ length s.mask.now) };

    ghost gives = { λ s size i old.
        let marked = not (slice_index s.mask.now (bytes_in size * i) == 0) in
        if marked then C.gives s.change.now size i old else 0 };

    #[inline(always)]
    fn apply(&self, size: Size, place: usize, old: u64) -> u64 {
        let value = self.change.apply(size, place, old);
        if is_marked(self.mask, size, place) {
            value
        } else {
            0
        }
    }
}
