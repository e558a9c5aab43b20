//! Loads of the elements of a vector.
ghost use Rattle.std.specs.Prelude.{◌≡◌, ◌+◌, ◌*◌, ◌/◌, ◌%◌, ◌^◌, ◌<◌, ◌≤◌, true, false, None, length};
ghost use Rattle.std.specs.Prelude.{if◌then◌else◌};
ghost use Rattle.std.specs.List.{find};
ghost use Rattle.paged_memory.specs.Memory.{first_without, run_of};
ghost use Rattle.mem_access.specs.Checks.{lacks};
ghost use Rattle.mem_access.specs.Values.{number_at};
ghost use Rattle.vector_elements.specs.Elements.{element_of, is_active, each_element, each_or_zero};
ghost use Rattle.vector_elements.specs.Numbers.{bytes_in};
ghost use Rattle.sve_access.specs.Contiguous.{memory_size, element_size, is_signed, loaded};
ghost use Rattle.sve_access.specs.Elements.{element_run, element_addresses};

use crate::addresses::{access_size, element_size, loaded, memory_size};
use crate::elements::Elements;
use mem_access::read_number;
use paged_memory::Pages;
use sm_types::LoadType;
use std::simd::prelude::*;
use vector_elements::{Change, Size, are_active, change_each, change_marked_or_zero, element};

/// The element that a load makes of the bytes at an address, which can be read.
#[inline]
fn element_at(kind: LoadType, address: u64, pages: &Pages) -> u64
    requires { first_without 4 pages.now.memory address (bytes_in (memory_size kind)) ≡ None }
    ensures { result ≡ loaded kind (number_at pages.now.memory
        (run_of address (bytes_in (memory_size kind)))) }
{
    match read_number(pages, address, access_size(memory_size(kind))) {
        Ok(number) => loaded(kind, number),
        Err(_) => unreachable!(),
    }
}

/// The elements of memory where they are active, and zero elsewhere.
#[derive(Clone, Copy)]
struct OfMemory<'a> {
    kind: LoadType,
    elements: &'a Elements<'a>,
    pages: &'a Pages,
}

impl<'a> Change for OfMemory<'a> {
    ghost can = { λ s size i. (size ≡ s.elements.now.element) × (s.elements.now.memory ≡ memory_size s.kind)
        × (i ≤ 256) × (length s.elements.now.pg.now ≤ 32)
        × (bytes_in size * i < 8 * length s.elements.now.pg.now)
        × (is_active (bytes_in size) s.elements.now.pg.now i ≡ true →
        first_without 4 s.pages.now.memory
        ((s.elements.now.start + i * bytes_in (memory_size s.kind)) % 2 ^ 64)
        (bytes_in (memory_size s.kind)) ≡ None) };

    ghost gives = { λ s size i old. if is_active (bytes_in size) s.elements.now.pg.now i then
        loaded s.kind (number_at s.pages.now.memory
        (element_run s.elements.now.start (memory_size s.kind) i)) else 0 };

    #[inline(always)]
    fn apply(&self, _size: Size, place: usize, _old: u64) -> u64 {
        if self.elements.is_active(place) {
            element_at(self.kind, self.elements.address(place), self.pages)
        } else {
            0
        }
    }
}

/// The elements of consecutive bytes.
#[derive(Clone, Copy)]
struct OfBytes<'a> {
    kind: LoadType,
    bytes: &'a [u8],
}

impl<'a> Change for OfBytes<'a> {
    ghost can = { λ s size i. let e = bytes_in (memory_size s.kind) in e * i + e ≤ length s.bytes.now };

    ghost gives = { λ s size i old.
        loaded s.kind (element_of (bytes_in (memory_size s.kind)) s.bytes.now i) };

    #[inline(always)]
    fn apply(&self, _size: Size, place: usize, _old: u64) -> u64 {
        loaded(
            self.kind,
            element(self.bytes, memory_size(self.kind), place),
        )
    }
}

/// The same as `load_all`, for a load that the caller knows.
#[inline(always)]
fn load_all_known(kind: LoadType, z: &mut [u8], bytes: &[u8])
    requires whole { length z.old % bytes_in (element_size kind) ≡ 0 }
    requires bytes { length bytes.now
        ≡ length z.old / bytes_in (element_size kind) * bytes_in (memory_size kind) }
    ensures { z.new ≡ each_element (bytes_in (element_size kind)) z.old (λ i old.
        loaded kind (element_of (bytes_in (memory_size kind)) bytes.now i)) }
{
    change_each(&OfBytes { kind, bytes }, element_size(kind), z);
}

/// Copies the bytes of a vector; those of one of 16 bytes as one.
#[inline(always)]
fn copy_bytes(z: &mut [u8], bytes: &[u8])
    requires { length bytes.now ≡ length z.old }
    ensures { z.new ≡ bytes.now }
{
    if z.len() == 16 {
        u8x16::from_slice(bytes).copy_to_slice(z);
    } else {
        z.copy_from_slice(bytes);
    }
}

/// Loads all elements of a vector from their bytes, where each is as long in memory as in the register.
#[inline(always)]
fn copy_all(kind: LoadType, z: &mut [u8], bytes: &[u8])
    requires same { memory_size kind ≡ element_size kind }
    requires unsigned { is_signed kind ≡ false }
    requires whole { length z.old % bytes_in (element_size kind) ≡ 0 }
    requires bytes { length bytes.now
        ≡ length z.old / bytes_in (element_size kind) * bytes_in (memory_size kind) }
    ensures { z.new ≡ each_element (bytes_in (element_size kind)) z.old (λ i old.
        loaded kind (element_of (bytes_in (memory_size kind)) bytes.now i)) }
{
    copy_bytes(z, bytes);
}

/// Loads all elements of a vector from their bytes. With a loop for each load that extends.
pub fn load_all(kind: LoadType, z: &mut [u8], bytes: &[u8])
    requires whole { length z.old % bytes_in (element_size kind) ≡ 0 }
    requires bytes { length bytes.now
        ≡ length z.old / bytes_in (element_size kind) * bytes_in (memory_size kind) }
    ensures { z.new ≡ each_element (bytes_in (element_size kind)) z.old (λ i old.
        loaded kind (element_of (bytes_in (memory_size kind)) bytes.now i)) }
{
    match kind {
        LoadType::ByteToB => copy_all(LoadType::ByteToB, z, bytes),
        LoadType::ByteToH => load_all_known(LoadType::ByteToH, z, bytes),
        LoadType::ByteToS => load_all_known(LoadType::ByteToS, z, bytes),
        LoadType::ByteToD => load_all_known(LoadType::ByteToD, z, bytes),
        LoadType::SignedWordToD => load_all_known(LoadType::SignedWordToD, z, bytes),
        LoadType::HalfwordToH => copy_all(LoadType::HalfwordToH, z, bytes),
        LoadType::HalfwordToS => load_all_known(LoadType::HalfwordToS, z, bytes),
        LoadType::HalfwordToD => load_all_known(LoadType::HalfwordToD, z, bytes),
        LoadType::SignedHalfwordToD => load_all_known(LoadType::SignedHalfwordToD, z, bytes),
        LoadType::SignedHalfwordToS => load_all_known(LoadType::SignedHalfwordToS, z, bytes),
        LoadType::WordToS => copy_all(LoadType::WordToS, z, bytes),
        LoadType::WordToD => load_all_known(LoadType::WordToD, z, bytes),
        LoadType::SignedByteToD => load_all_known(LoadType::SignedByteToD, z, bytes),
        LoadType::SignedByteToS => load_all_known(LoadType::SignedByteToS, z, bytes),
        LoadType::SignedByteToH => load_all_known(LoadType::SignedByteToH, z, bytes),
        LoadType::DoublewordToD => copy_all(LoadType::DoublewordToD, z, bytes),
    }
}

/// The same as `load_marked`, for a load that the caller knows.
#[inline(always)]
fn load_known(kind: LoadType, pg: &[u8], z: &mut [u8], bytes: &[u8])
    requires small { length pg.now ≤ 32 }
    requires bits { length z.old ≡ 8 * length pg.now }
    requires bytes { length bytes.now
        ≡ length z.old / bytes_in (element_size kind) * bytes_in (memory_size kind) }
    ensures { z.new ≡ each_or_zero (bytes_in (element_size kind)) pg.now z.old (λ i old.
        loaded kind (element_of (bytes_in (memory_size kind)) bytes.now i)) }
{
    change_marked_or_zero(&OfBytes { kind, bytes }, element_size(kind), z, pg);
}

/// Loads the active elements of a vector from the bytes of all elements, by a mask of the predicate; the
/// others become zero. With a loop for each load.
fn load_marked(kind: LoadType, pg: &[u8], z: &mut [u8], bytes: &[u8])
    requires small { length pg.now ≤ 32 }
    requires bits { length z.old ≡ 8 * length pg.now }
    requires bytes { length bytes.now
        ≡ length z.old / bytes_in (element_size kind) * bytes_in (memory_size kind) }
    ensures { z.new ≡ each_or_zero (bytes_in (element_size kind)) pg.now z.old (λ i old.
        loaded kind (element_of (bytes_in (memory_size kind)) bytes.now i)) }
{
    match kind {
        LoadType::ByteToB => load_known(LoadType::ByteToB, pg, z, bytes),
        LoadType::ByteToH => load_known(LoadType::ByteToH, pg, z, bytes),
        LoadType::ByteToS => load_known(LoadType::ByteToS, pg, z, bytes),
        LoadType::ByteToD => load_known(LoadType::ByteToD, pg, z, bytes),
        LoadType::SignedWordToD => load_known(LoadType::SignedWordToD, pg, z, bytes),
        LoadType::HalfwordToH => load_known(LoadType::HalfwordToH, pg, z, bytes),
        LoadType::HalfwordToS => load_known(LoadType::HalfwordToS, pg, z, bytes),
        LoadType::HalfwordToD => load_known(LoadType::HalfwordToD, pg, z, bytes),
        LoadType::SignedHalfwordToD => load_known(LoadType::SignedHalfwordToD, pg, z, bytes),
        LoadType::SignedHalfwordToS => load_known(LoadType::SignedHalfwordToS, pg, z, bytes),
        LoadType::WordToS => load_known(LoadType::WordToS, pg, z, bytes),
        LoadType::WordToD => load_known(LoadType::WordToD, pg, z, bytes),
        LoadType::SignedByteToD => load_known(LoadType::SignedByteToD, pg, z, bytes),
        LoadType::SignedByteToS => load_known(LoadType::SignedByteToS, pg, z, bytes),
        LoadType::SignedByteToH => load_known(LoadType::SignedByteToH, pg, z, bytes),
        LoadType::DoublewordToD => load_known(LoadType::DoublewordToD, pg, z, bytes),
    }
}

/// Loads the active elements of a vector from the bytes of all elements; the others become zero. Mostly all
/// elements are active.
#[inline]
fn load_from(kind: LoadType, pg: &[u8], z: &mut [u8], bytes: &[u8])
    requires small { length pg.now ≤ 32 }
    requires bits { length z.old ≡ 8 * length pg.now }
    requires bytes { length bytes.now
        ≡ length z.old / bytes_in (element_size kind) * bytes_in (memory_size kind) }
    ensures { z.new ≡ each_or_zero (bytes_in (element_size kind)) pg.now z.old (λ i old.
        loaded kind (element_of (bytes_in (memory_size kind)) bytes.now i)) }
{
    if are_active(pg, element_size(kind)) {
        load_all(kind, z, bytes);
    } else {
        load_marked(kind, pg, z, bytes);
    }
}

/// Loads the active elements of a vector, one after the other; the others become zero.
fn load_each(kind: LoadType, elements: &Elements, z: &mut [u8], pages: &Pages)
    requires memory { elements.now.memory ≡ memory_size kind }
    requires element { elements.now.element ≡ element_size kind }
    requires small { length elements.now.pg.now ≤ 32 }
    requires bits { length z.old ≡ 8 * length elements.now.pg.now }
    requires readable { find (lacks 4 pages.now.memory) (element_addresses elements.now.start
        (memory_size kind) (element_size kind) elements.now.pg.now) ≡ None }
    ensures { z.new ≡ each_or_zero (bytes_in (element_size kind)) elements.now.pg.now z.old (λ i old.
        loaded kind (number_at pages.now.memory (element_run elements.now.start (memory_size kind) i))) }
{
    change_each(
        &OfMemory {
            kind,
            elements,
            pages,
        },
        element_size(kind),
        z,
    );
}

/// Loads the active elements of a vector, whose bytes can be read; the others become zero. Where the bytes of
/// all elements lie in one page, the page is looked up once.
pub fn load_elements(kind: LoadType, elements: &Elements, z: &mut [u8], pages: &Pages)
    requires memory { elements.now.memory ≡ memory_size kind }
    requires element { elements.now.element ≡ element_size kind }
    requires small { length elements.now.pg.now ≤ 32 }
    requires some { 2 ≤ length elements.now.pg.now }
    requires bits { length z.old ≡ 8 * length elements.now.pg.now }
    requires readable { find (lacks 4 pages.now.memory) (element_addresses elements.now.start
        (memory_size kind) (element_size kind) elements.now.pg.now) ≡ None }
    ensures { z.new ≡ each_or_zero (bytes_in (element_size kind)) elements.now.pg.now z.old (λ i old.
        loaded kind (number_at pages.now.memory (element_run elements.now.start (memory_size kind) i))) }
{
    let (start, size) = (elements.start, elements.size());
    if start % 4096 + size > 4096 {
        load_each(kind, elements, z, pages);
        return;
    }
    match pages.bytes_within(start, size as usize) {
        Some(bytes) => load_from(kind, elements.pg, z, bytes),
        None => load_each(kind, elements, z, pages),
    }
}
