//! The active elements of an access.
ghost use Rattle.std.specs.Prelude.{◌≡◌, ℕ, ◌+◌, ◌*◌, ◌/◌, ◌%◌, ◌^◌, ◌<◌, ◌≤◌, List, [], ◌∷◌, if◌then◌else◌};
ghost use Rattle.std.specs.Prelude.{◌↔◌, IsTrue, length, flat_map};
ghost use Rattle.std.specs.List.{find};
ghost use Rattle.vector_elements.specs.Elements.{is_active};
ghost use Rattle.vector_elements.specs.Numbers.{bytes_in};
ghost use Rattle.sve_access.specs.Elements.{element_run, element_addresses, IsRun};

use crate::places::{Bytes, Check, first_of};
use vector_elements::{Size, are_active, bit};

/// The active elements of an access.
#[derive(Clone, Copy)]
pub struct Elements<'a> {
    /// The address of element 0.
    pub start: u64,
    /// The size of an element in memory, and in the register.
    pub memory: Size,
    pub element: Size,
    /// The predicate, of at most 32 bytes.
    pub pg: &'a [u8],
}

impl<'a> Elements<'a> {
    /// How many elements there are, active or not.
    #[inline]
    pub fn count(&self) -> usize
        requires { length self.now.pg.now ≤ 32 }
        ensures value { result ≡ 8 * length self.now.pg.now / bytes_in self.now.element }
        ensures small { result ≤ 256 }
    {
        8 * self.pg.len() / self.element.bytes()
    }

    /// The bytes in memory of all elements, active or not.
    #[inline]
    pub fn size(&self) -> u64
        requires few { length self.now.pg.now ≤ 32 }
        requires some { 2 ≤ length self.now.pg.now }
        ensures value { result
            ≡ 8 * length self.now.pg.now / bytes_in self.now.element * bytes_in self.now.memory }
        ensures some { 1 ≤ result }
        ensures small { result ≤ 2048 }
    {
        (self.count() * self.memory.bytes()) as u64
    }

    /// Whether element `i` is active.
    #[inline]
    pub fn is_active(&self, i: usize) -> bool
        requires within { bytes_in self.now.element * i < 8 * length self.now.pg.now }
        requires few { length self.now.pg.now ≤ 32 }
        ensures { result ≡ is_active (bytes_in self.now.element) self.now.pg.now i }
    {
        bit(self.pg, self.element.bytes() * i)
    }

    /// Whether the elements are one run of bytes, in memory as in the register: each is as long in one as in
    /// the other, and all are active.
    #[inline]
    pub fn are_run(&self) -> bool
        ensures { IsTrue result ↔ IsRun self.now.memory self.now.element self.now.pg.now }
    {
        self.memory.bytes() == self.element.bytes() && are_active(self.pg, self.element)
    }

    /// The address of element `i`.
    #[inline]
    pub fn address(&self, i: usize) -> u64
        requires { i ≤ 256 }
        ensures { result ≡ (self.now.start + i * bytes_in self.now.memory) % 2 ^ 64 }
    {
        self.start.wrapping_add((i * self.memory.bytes()) as u64)
    }

    /// The first byte of element `i` that fails a check, if the element is active.
    #[inline]
    fn first_of_element<C: Check>(&self, check: &C, i: usize) -> Option<u64>
        requires small { i ≤ 256 }
        requires within { bytes_in self.now.element * i < 8 * length self.now.pg.now }
        requires few { length self.now.pg.now ≤ 32 }
        ensures { let active = is_active (bytes_in self.now.element) self.now.pg.now i in
            result ≡ find (C.fails check.now) (flat_map (element_run self.now.start self.now.memory)
            (if active then i ∷ [] else [])) }
    {
        if self.is_active(i) {
            check.first(self.address(i), self.memory.bytes() as u64)
        } else {
            None
        }
    }
}

/// The first byte of the active elements that fails a check.
fn first_of_each<C: Check>(elements: &Elements, check: &C) -> Option<u64>
    requires { length elements.now.pg.now ≤ 32 }
    ensures { result ≡ find (C.fails check.now) (element_addresses elements.now.start elements.now.memory
        elements.now.element elements.now.pg.now) }
{
    let mut found = None;
    for i in 0..elements.count() {
        found = first_of(found, elements.first_of_element(check, i));
    }
    found
}

impl<'a> Bytes for Elements<'a> {
    ghost can = { λ s. (length s.pg.now ≤ 32) × (2 ≤ length s.pg.now) };

    ghost addresses = { λ s. element_addresses s.start s.memory s.element s.pg.now };

    /// Mostly no byte of any element fails.
    #[inline]
    fn first_failing<C: Check>(&self, check: &C) -> Option<u64> {
        match check.first(self.start, self.size()) {
            None => None,
            Some(_) => first_of_each(self, check),
        }
    }
}
