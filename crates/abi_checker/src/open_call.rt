//! A marked call that has not returned, and what its return is compared with.
ghost use Rattle.std.specs.Prelude.{◌≡◌, ◌↔◌, ◌+◌, ◌*◌, ◌≤◌, ◌<◌, ◌%◌, ◌^◌, ℕ, true, List, [], Some, None, IsTrue};
ghost use Rattle.std.specs.Prelude.{IfOk, IfSome, IfNone, length, slice_index_or};
ghost use Rattle.kernel_contexts.specs.Context.{state_of, is_home};
ghost use Rattle.kernel_contexts.specs.State.{State};
ghost use Rattle.paged_memory.specs.Memory.{bytes_with, run_of, AddressSpace};
ghost use Rattle.sve_access.specs.After.{read_bytes};
ghost use Rattle.sve_vectors.specs.Layout.{items_of};
ghost use Rattle.za_array.specs.Array.{IsSquare};
ghost use Rattle.lazy_saving.specs.Block.{buffer_of, saved_of};
ghost use Rattle.lazy_saving.specs.Dormant.{IsDormantAt, IsLawful, HasSameBytes, HasSamePages};
ghost use Rattle.za_routines.specs.Places.{places_of};
ghost use Rattle.abi_checker.specs.Faults.{block_of};
ghost use Rattle.abi_checker.specs.Keeping.{IsKeptBytes};

use crate::permissions::{have_same_pages, permissions};
use kernel_contexts::Context;
use paged_memory::Pages;
use sm_types::Memory;
use std::alloc::Global;
use za_array::Za;
use za_routines::{RoutinePlaces, buffer_address, is_ready, read_block, saved_bytes};

/// The bytes of a block, of the tail and of the routines.
#[derive(Clone, Copy)]
pub struct KeptBytes {
    pub block: [u8; 16],
    pub tail: [u8; 24],
    pub disable: [u8; 80],
    pub restore: [u8; 72],
}

/// What is kept of the state after a marked call, until it returns.
#[derive(Drop)]
pub struct OpenCall {
    pub places: RoutinePlaces,
    pub sp: u64,
    pub depth: u32,
    /// The address of the block.
    pub block: u64,
    pub bytes: KeptBytes,
    /// A row for each vector of ZA.
    pub za: Vec<Vec<u8>>,
    /// The pages with their permissions.
    pub pages: Vec<(u64, u8)>,
}

/// The bytes from an address on, if they can be read.
fn read_bytes<const N: usize>(pages: &Pages, address: u64) -> Option<[u8; N]>
    ensures some { IfSome result (λ bytes. bytes_with 4 pages.now.memory address N ≡ Some bytes) }
    ensures none { IfNone result (bytes_with 4 pages.now.memory address N ≡ None) }
{
    let mut bytes = [0; N];
    match pages.read(address, &mut bytes) {
        Ok(()) => Some(bytes),
        Err(_) => None,
    }
}

/// Whether the bytes from an address on can be read, and are these.
fn has_bytes<const N: usize>(pages: &Pages, address: u64, bytes: &[u8; N]) -> bool
    ensures { IsTrue result ↔ (bytes_with 4 pages.now.memory address N ≡ Some bytes.now) }
{
    match read_bytes::<N>(pages, address) {
        Some(now) => now.as_slice() == bytes.as_slice(),
        None => false,
    }
}

/// Whether the bytes from an address on can be read, and are those of a row.
fn has_row(pages: &Pages, address: u64, row: &[u8]) -> bool
    requires { length row.now ≤ 256 }
    ensures { IsTrue result ↔ (bytes_with 4 pages.now.memory address (length row.now) ≡ Some row.now) }
{
    let mut room = [0u8; 256];
    let bytes = &mut room[..row.len()];
    match pages.read(address, bytes) {
        Ok(()) => *bytes == *row,
        Err(_) => false,
    }
}

/// The vectors of ZA, a row for each. `Memory` is want of memory.
fn rows_of(alloc: Global, za: &Za) -> Result<Vec<Vec<u8>>, Memory>
    ensures rows { IfOk result (λ rows. items_of rows.items ≡ za.now.vectors) }
    ensures square { IfOk result (λ rows. IsSquare (length za.now.vectors) za.now.vectors) }
    ensures small { IfOk result (λ rows. length za.now.vectors ≤ 256) }
{
    let mut rows = Vec::new(alloc);
    'rows: for index in 0..za.size() {
        let row = Vec::from_slice(alloc, za.vector(index)).map_err(|_| Memory)?;
        rows.push(row).map_err(|_| Memory)?;
    }
    Ok(rows)
}

/// Whether the vectors of ZA are these rows.
fn has_rows(za: &Za, rows: &[Vec<u8>]) -> bool
    ensures { IsTrue result ↔ (za.now.vectors ≡ items_of rows.now) }
{
    if rows.len() != za.size() {
        return false;
    }
    let mut index = 0;
    'rows: while index < rows.len() {
        if rows[index].as_slice() != za.vector(index) {
            return false;
        }
        index += 1;
    }
    true
}

/// The bytes of the block, the tail and the routines, where ZA is dormant with the block at that address.
fn dormant_bytes(context: &Context, places: &RoutinePlaces, address: u64) -> Option<KeptBytes>
    requires { is_home context.now ≡ true }
    ensures some { IfSome result (λ kept. IsKeptBytes (places_of places.now) address kept
        (state_of context.now).core) }
    ensures none { IfNone result (¬ IsDormantAt (places_of places.now) (state_of context.now).core address) }
{
    let machine = context.machine();
    if !machine.za_on || machine.tpidr2 != address {
        return None;
    }
    let pages = &machine.pages;
    let block = read_block(pages, address)?;
    if !is_ready(pages, places, context.bank().za.size(), address, &block) {
        return None;
    }
    Some(KeptBytes {
        block,
        tail: read_bytes(pages, places.tail)?,
        disable: read_bytes(pages, places.disable)?,
        restore: read_bytes(pages, places.restore)?,
    })
}

impl OpenCall {
    ghost use Rattle.std.specs.FinMap.{entries};
    ghost use Rattle.abi_checker.specs.Keeping.{IsKept, HasKeptBytes, HasKeptCode, HasKeptPages, HasKeptSlices};
    ghost use Rattle.abi_checker.specs.Keeping.{HasKeptMemory, HasKeptZa, KeepsRules};
    ghost use Rattle.abi_checker.specs.Returning.{is_back, IsOfSome};

    /// What is kept of the state of a thread after a marked call; `None` exactly where its ZA is not dormant,
    /// with the block at X19. `Memory` is want of memory.
    pub fn keep(
        alloc: Global,
        context: &Context,
        places: RoutinePlaces,
    ) -> Result<Option<OpenCall>, Memory>
        requires { is_home context.now ≡ true }
        ensures kept { IfOk result (λ found. IfSome found (λ call. IsKept call (state_of context.now))) }
        ensures places { IfOk result (λ found. IfSome found (λ call. call.places ≡ places)) }
        ensures none { IfOk result (λ found. IfNone found (¬ IsDormantAt (places_of places)
            (state_of context.now).core (block_of (state_of context.now)))) }
    {
        let machine = context.machine();
        let block = machine.scalars.x[19];
        let Some(bytes) = dormant_bytes(context, &places, block) else {
            return Ok(None);
        };
        Ok(Some(OpenCall {
            places,
            sp: machine.scalars.sp,
            depth: context.depth(),
            block,
            bytes,
            za: rows_of(alloc, &context.bank().za)?,
            pages: permissions(alloc, &machine.pages)?,
        }))
    }

    /// Whether a thread is back from the call.
    #[inline]
    pub fn is_back(&self, context: &Context) -> bool
        ensures { result ≡ is_back (state_of context.now) self.now }
    {
        let scalars = &context.machine().scalars;
        scalars.pc == self.places.tail && scalars.sp == self.sp && context.depth() == self.depth
    }

    /// Whether the block, the tail and the routines have the bytes that they had, and can be read.
    fn has_same_bytes(&self, pages: &Pages) -> bool
        ensures { IsTrue result ↔ HasKeptBytes self.now pages.now.memory }
    {
        has_bytes(pages, self.block, &self.bytes.block)
            && has_bytes(pages, self.places.tail, &self.bytes.tail)
            && has_bytes(pages, self.places.disable, &self.bytes.disable)
            && has_bytes(pages, self.places.restore, &self.bytes.restore)
    }

    /// Whether the pages of the tail and the routines have the permissions that they had.
    fn has_same_code(&self, now: &[(u64, u8)]) -> bool
        ensures { (before after : AddressSpace) → entries before.perm ≡ self.now.pages.items
            → entries after.perm ≡ now.now → (IsTrue result ↔ HasKeptCode self.now before after) }
    {
        let old = self.pages.as_slice();
        have_same_pages(old, now, self.places.tail, 24)
            && have_same_pages(old, now, self.places.disable, 80)
            && have_same_pages(old, now, self.places.restore, 72)
    }

    /// Whether the pages of the block, the buffer, the tail and the routines have the permissions that they
    /// had.
    fn has_same_pages(&self, now: &[(u64, u8)]) -> bool
        requires { IsOfSome self.now }
        ensures { (before after : AddressSpace) → entries before.perm ≡ self.now.pages.items
            → entries after.perm ≡ now.now → (IsTrue result ↔ HasKeptPages self.now before after) }
    {
        let old = self.pages.as_slice();
        let buffer = buffer_address(&self.bytes.block);
        let saved = saved_bytes(&self.bytes.block, self.za.len());
        have_same_pages(old, now, self.block, 16)
            && have_same_pages(old, now, buffer, saved)
            && self.has_same_code(now)
    }

    /// Whether the slices to be saved are in the buffer, one after another, and can be read.
    fn is_saved(&self, pages: &Pages) -> bool
        requires { IsOfSome self.now }
        ensures { IsTrue result ↔ HasKeptSlices self.now pages.now.memory }
    {
        let size = self.za.len();
        let buffer = buffer_address(&self.bytes.block);
        let saved = saved_bytes(&self.bytes.block, size);
        'slices: for index in 0..size {
            let done = (index * size) as u64;
            if done < saved
                && !has_row(pages, buffer.wrapping_add(done), self.za[index].as_slice())
            {
                return false;
            }
        }
        true
    }

    /// Whether the bytes and the pages are as they were.
    fn has_same_memory(&self, pages: &Pages, now: &[(u64, u8)]) -> bool
        requires { IsOfSome self.now }
        ensures { (before : AddressSpace) → entries before.perm ≡ self.now.pages.items
            → entries pages.now.memory.perm ≡ now.now
            → (IsTrue result ↔ HasKeptMemory self.now before pages.now.memory) }
    {
        self.has_same_pages(now) && self.has_same_bytes(pages)
    }

    /// Whether ZA is as it was, and dormant, or its slices are in the buffer, and it is off.
    fn has_kept_za(&self, context: &Context) -> bool
        requires home { is_home context.now ≡ true }
        requires kept { IsOfSome self.now }
        ensures { IsTrue result ↔ HasKeptZa self.now (state_of context.now).core }
    {
        let machine = context.machine();
        if machine.za_on {
            return machine.tpidr2 == self.block && has_rows(&context.bank().za, self.za.as_slice());
        }
        machine.tpidr2 == 0 && self.is_saved(&machine.pages)
    }

    /// Whether the rules were kept up to the state in which the thread is, whose pages have these permissions.
    fn keeps_rules(&self, context: &Context, now: &[(u64, u8)]) -> bool
        requires home { is_home context.now ≡ true }
        requires kept { IsOfSome self.now }
        ensures { (old : AddressSpace) → entries old.perm ≡ self.now.pages.items
            → entries (state_of context.now).core.memory.perm ≡ now.now
            → (IsTrue result ↔ KeepsRules self.now old (state_of context.now).core) }
    {
        let machine = context.machine();
        machine.scalars.x[19] == self.block
            && self.has_same_memory(&machine.pages, now)
            && self.has_kept_za(context)
    }

    /// Whether the callee has come back as the scheme allows, from the state of which this was kept, to that
    /// in which the thread is. `Memory` is want of memory.
    pub fn is_lawful(&self, alloc: Global, context: &Context) -> Result<bool, Memory>
        requires home { is_home context.now ≡ true }
        requires kept { IsOfSome self.now }
        ensures { (s : State) → IsKept self.now s → IfOk result (λ lawful. IsTrue lawful
            ↔ IsLawful (places_of self.now.places) s.core (state_of context.now).core (block_of s)) }
    {
        let now = permissions(alloc, &context.machine().pages)?;
        Ok(self.keeps_rules(context, now.as_slice()))
    }
}
