//! The active elements of a slice of a tile in memory.
ghost use Rattle.std.specs.Prelude.{◌≡◌, ◌≢◌, ℕ, ◌+◌, ◌-◌, ◌*◌, ◌%◌, ◌<◌, ◌≤◌, true, List, length};
ghost use Rattle.std.specs.Prelude.{slice_index, replicate, None, Some, Err};
ghost use Rattle.std.specs.List.{find};
ghost use Rattle.paged_memory.specs.PageTable.{Owns};
ghost use Rattle.mem_access.specs.Checks.{lacks, access_fault};
ghost use Rattle.mem_access.specs.Transfer.{Transfers, HasRoom, raised_by, written};
ghost use Rattle.sve_access.specs.After.{at_base};
ghost use Rattle.sve_access.specs.Elements.{element_addresses, element_bytes};
ghost use Rattle.tile_ops.specs.Slices.{with_element};
ghost use Rattle.tile_ops.specs.Named.{element_size};
ghost use Rattle.tile_ops.specs.Moves.{merged};
ghost use Rattle.za_access.specs.Slices.{active_addresses, active_bytes, loaded_element, loaded_slice};
ghost use Rattle.za_access.specs.Units.{AreUnits};

use mem_access::AccessStop;
use paged_memory::Pages;
use sm_types::{Elem, Scalars};
use sve_access::{Bytes, Check, Elements, read_run, size_of, store_elements};
use tile_ops::{element_size, merge};
use vector_elements::bit;

/// The active elements of a slice in memory.
#[derive(Clone, Copy)]
pub struct SliceElements<'a> {
    /// The address of element 0.
    pub start: u64,
    pub size: Elem,
    /// The predicate, a bit for each byte of the slice.
    pub pg: &'a [u8],
}

/// Copies the bytes of a predicate, each byte of an odd number being the one before it.
#[inline]
fn copy_pairs(pg: &[u8], units: &mut [u8])
    requires { length units.old ≡ length pg.now }
    ensures { (k : ℕ) → k < length pg.now → slice_index units.new k ≡ slice_index pg.now (k - k % 2) }
{
    for k in 0..pg.len() {
        units[k] = pg[k - k % 2];
    }
}

/// The predicate of the same bytes as elements of at most 8 bytes: an element of 16 bytes is two doublewords,
/// both of which are active where it is, and the bit of a doubleword is the lowest of its byte.
#[inline]
fn copy_units(size: Elem, pg: &[u8], units: &mut [u8])
    requires long { length units.old ≡ length pg.now }
    requires even { length pg.now % 2 ≡ 0 }
    ensures { AreUnits size pg.now units.new }
{
    match size {
        Elem::Q => copy_pairs(pg, units),
        _ => units.copy_from_slice(pg),
    }
}

impl<'a> Bytes for SliceElements<'a> {
    ghost can = { λ s. (length s.pg.now ≤ 32) × (2 ≤ length s.pg.now) × (length s.pg.now % 2 ≡ 0) };

    ghost addresses = { λ s. active_addresses s.start (element_size s.size) s.pg.now };

    #[inline]
    fn first_failing<C: Check>(&self, check: &C) -> Option<u64> {
        let mut room = [0; 32];
        let units = &mut room[..self.pg.len()];
        copy_units(self.size, self.pg, units);
        self.as_units(units).first_failing(check)
    }
}

impl<'a> SliceElements<'a> {
    /// The same bytes as elements of at most 8 bytes, under the predicate of those.
    #[inline]
    fn as_units<'b>(&self, units: &'b [u8]) -> Elements<'b>
        requires { AreUnits self.now.size self.now.pg.now units.now }
        ensures addresses { element_addresses result.start result.memory result.element result.pg.now
            ≡ active_addresses self.now.start (element_size self.now.size) self.now.pg.now }
        ensures bytes { (slice : List ℕ) → element_bytes slice result.memory result.element result.pg.now
            ≡ active_bytes (element_size self.now.size) self.now.pg.now slice }
        ensures size { result.memory ≡ result.element }
        ensures long { length result.pg.now ≡ length self.now.pg.now }
    {
        let size = size_of(self.size);
        Elements {
            start: self.start,
            memory: size,
            element: size,
            pg: units,
        }
    }

    /// Stores the active elements of a slice from base register `rn` on, if no check fails, and makes their
    /// pages owned, and no others. Any other answer leaves the pages as they were, but that more may be owned
    /// after `Memory`, which comes only where a page is not owned.
    pub fn store(
        &self,
        rn: u8,
        slice: &[u8],
        s: &Scalars,
        pages: &mut Pages,
    ) -> Result<(), AccessStop>
        requires few { length self.now.pg.now ≤ 32 }
        requires some { 2 ≤ length self.now.pg.now }
        requires even { length self.now.pg.now % 2 ≡ 0 }
        requires bits { length slice.now ≡ 8 * length self.now.pg.now }
        ensures made { let addresses = active_addresses self.now.start (element_size self.now.size)
            self.now.pg.now in
            Transfers (access_fault None (at_base rn true addresses) s.now pages.old.memory)
            (written pages.old.memory addresses
            (Some (active_bytes (element_size self.now.size) self.now.pg.now slice.now)))
            pages.old.memory pages.new.memory result }
        ensures room { HasRoom (at_base rn true
            (active_addresses self.now.start (element_size self.now.size) self.now.pg.now)) pages.old
            → result ≢ Err AccessStop.Memory }
        ensures owned { Owns raised_by (active_addresses self.now.start (element_size self.now.size)
            self.now.pg.now) pages.old pages.new result }
    {
        let mut room = [0; 32];
        let units = &mut room[..self.pg.len()];
        copy_units(self.size, self.pg, units);
        store_elements(&self.as_units(units), rn, slice, s, pages)
    }

    /// Writes element `i` of a slice: what memory has, which can be read, where it is active, else zeros.
    #[inline]
    fn load_element(&self, i: usize, slice: &mut [u8], pages: &Pages)
        requires within { i * element_size self.now.size + element_size self.now.size ≤ length slice.old }
        requires bits { length slice.old ≡ 8 * length self.now.pg.now }
        requires few { length self.now.pg.now ≤ 32 }
        requires readable { find (lacks 4 pages.now.memory)
            (active_addresses self.now.start (element_size self.now.size) self.now.pg.now) ≡ None }
        ensures { slice.new ≡ with_element (element_size self.now.size) slice.old i
            (loaded_element self.now.start (element_size self.now.size) self.now.pg.now pages.now.memory i) }
    {
        let bytes = element_size(self.size);
        let place = i * bytes;
        let element = &mut slice[place..place + bytes];
        if bit(self.pg, bytes * i) {
            read_run(pages, self.start.wrapping_add(place as u64), element);
        } else {
            element.fill(0);
        }
    }

    /// Loads a slice, whose active elements can be read, element by element; the others become zero.
    fn load_each(&self, slice: &mut [u8], pages: &Pages)
        requires bits { length slice.old ≡ 8 * length self.now.pg.now }
        requires few { length self.now.pg.now ≤ 32 }
        requires even { length self.now.pg.now % 2 ≡ 0 }
        requires readable { find (lacks 4 pages.now.memory)
            (active_addresses self.now.start (element_size self.now.size) self.now.pg.now) ≡ None }
        ensures { slice.new ≡
            loaded_slice self.now.start (element_size self.now.size) self.now.pg.now pages.now.memory }
    {
        for i in 0..slice.len() / element_size(self.size) {
            self.load_element(i, slice, pages);
        }
    }

    /// Loads a slice from the bytes of all its elements, active or not; the inactive ones become zero.
    fn load_from(&self, bytes: &[u8], slice: &mut [u8])
        requires bits { length slice.old ≡ 8 * length self.now.pg.now }
        requires even { length self.now.pg.now % 2 ≡ 0 }
        requires bytes { length bytes.now ≡ length slice.old }
        ensures { slice.new ≡
            merged (element_size self.now.size) self.now.pg.now bytes.now (replicate (length slice.old) 0) }
    {
        slice.fill(0);
        merge(element_size(self.size), self.pg, bytes, slice);
    }

    /// Loads a slice, whose active elements can be read; the others become zero. Where the bytes of all
    /// elements lie in one page, the page is looked up once.
    pub fn load(&self, slice: &mut [u8], pages: &Pages)
        requires bits { length slice.old ≡ 8 * length self.now.pg.now }
        requires few { length self.now.pg.now ≤ 32 }
        requires some { 2 ≤ length self.now.pg.now }
        requires even { length self.now.pg.now % 2 ≡ 0 }
        requires readable { find (lacks 4 pages.now.memory)
            (active_addresses self.now.start (element_size self.now.size) self.now.pg.now) ≡ None }
        ensures { slice.new ≡
            loaded_slice self.now.start (element_size self.now.size) self.now.pg.now pages.now.memory }
    {
        let size = slice.len();
        if self.start % 4096 + size as u64 > 4096 {
            self.load_each(slice, pages);
            return;
        }
        match pages.bytes_within(self.start, size) {
            Some(bytes) => self.load_from(bytes, slice),
            None => self.load_each(slice, pages),
        }
    }
}
