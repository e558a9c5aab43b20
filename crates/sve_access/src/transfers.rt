//! The contiguous loads and stores.
ghost use Rattle.std.specs.Prelude.{◌≡◌, ◌≢◌, ◌*◌, ◌/◌, ◌%◌, ◌≤◌, ◌<◌, false, true, Ok, Err, Some, None};
ghost use Rattle.std.specs.Prelude.{length, take};
ghost use Rattle.std.specs.List.{find};
ghost use Rattle.sm_types.specs.declared.vector.VectorAccess.TheVariants as form;
ghost use Rattle.sve_table.specs.Ranges.{IsVectorAccess};
ghost use Rattle.vector_elements.specs.Elements.{element_of, each_element, each_or_zero};
ghost use Rattle.vector_elements.specs.Numbers.{bytes_in};
ghost use Rattle.sve_vectors.specs.State.{length_of, with_vector};
ghost use Rattle.paged_memory.specs.Memory.{first_without, run_of};
ghost use Rattle.paged_memory.specs.PageTable.{AreOwned, KeepsOwned, Owns};
ghost use Rattle.mem_access.specs.Checks.{lacks, access_fault};
ghost use Rattle.mem_access.specs.Values.{number_at};
ghost use Rattle.mem_access.specs.Transfer.{Transfers, HasRoom, raised_by, written};
ghost use Rattle.sve_access.specs.After.{access_of, vector_fault, after_access, contents_of};
ghost use Rattle.sve_vectors.specs.Registers.{vector_at, predicate_at};
ghost use Rattle.sve_access.specs.After.{at_base, elements_stored, read_bytes, with_elements, KeepsLengths};
ghost use Rattle.sve_access.specs.After.{IsMade, HasInstructionRoom, writes_of};
ghost use Rattle.sve_access.specs.Contiguous.{memory_size, element_size, loaded, multiple_from};
ghost use Rattle.sve_access.specs.Elements.{element_run, element_addresses};
ghost use Rattle.sve_access.specs.Registers.{IsRegister, register_access, register_size, register_bytes};
ghost use Rattle.sve_access.specs.Registers.{with_register};

use crate::addresses::{element_size, first_address, memory_size, multiple_from, size_of};
use crate::checks::{load_fault, place_fault, store_fault};
use crate::elements::Elements;
use crate::loads::{load_all, load_elements};
use crate::places::Run;
use crate::stores::{own_elements, write_elements};
use crate::within_page::{whole_elements, whole_run};
use mem_access::{AccessStop, write_bytes};
use paged_memory::Pages;
use scalar_exec::read_x_or_sp;
use sm_types::{Elem, LoadType, Scalars, VectorAccess, VectorOffset};
use sve_vectors::{Vectors, read_p, write_p, write_z};

/// Copies the bytes of a predicate to the first bytes of a room, and says how many there are.
#[inline]
fn copy_p(vectors: &Vectors, n: u8, room: &mut [u8]) -> usize
    requires n { n < 16 }
    requires room { length room.old ≡ 32 }
    ensures value { take result room.new ≡ predicate_at vectors.now.registers n }
    ensures long { length_of vectors.now ≡ 8 * result }
    ensures small { result ≤ 32 }
    ensures some { 2 ≤ result }
{
    let p = read_p(vectors, n);
    room[..p.len()].copy_from_slice(p);
    p.len()
}

/// Loads the active elements of a vector, whose bytes can be read; the others become zero.
#[inline]
#[tactic(auto, using(sve_vectors::proofs::Whole::vector_whole))]
fn load_z(kind: LoadType, elements: &Elements, vectors: &mut Vectors, zt: u8, pages: &Pages)
    requires zt { zt < 32 }
    requires memory { elements.now.memory ≡ memory_size kind }
    requires element { elements.now.element ≡ element_size kind }
    requires small { length elements.now.pg.now ≤ 32 }
    requires some { 2 ≤ length elements.now.pg.now }
    requires bits { length_of vectors.old ≡ 8 * length elements.now.pg.now }
    requires readable { find (lacks 4 pages.now.memory) (element_addresses elements.now.start
        (memory_size kind) (element_size kind) elements.now.pg.now) ≡ None }
    ensures { vectors.new ≡ with_vector vectors.old zt (each_or_zero (bytes_in (element_size kind))
        elements.now.pg.now (vector_at vectors.old.registers zt)
        (λ i old. loaded kind (number_at pages.now.memory
        (element_run elements.now.start (memory_size kind) i)))) }
{
    load_elements(kind, elements, vectors.z_mut(zt), pages);
}

/// The same as `transfer_load`, for any load.
#[inline(never)]
#[tactic(auto, unfolding(
// The access, the registers after it and the memory.
crate::specs::After::access_of, crate::specs::After::registers_after, crate::specs::After::stored),
// Where its bytes can be read.
using(crate::proofs::Faults::can_read))]
fn load_checked(
    kind: LoadType,
    offset: &VectorOffset,
    pg: u8,
    rn: u8,
    zt: u8,
    s: &Scalars,
    vectors: &mut Vectors,
    pages: &Pages,
) -> Result<(), AccessStop>
    requires { IsVectorAccess (form.Load kind offset.now pg rn zt) }
    ensures made { IsMade (form.Load kind offset.now pg rn zt) s.now
        vectors.old vectors.new pages.now pages.now result }
    ensures room { result ≢ Err AccessStop.Memory }
    ensures lengths { KeepsLengths vectors.old vectors.new }
{
    let mut room = [0; 32];
    let count = copy_p(vectors, pg, &mut room);
    let (memory, element) = (memory_size(kind), element_size(kind));
    let base = read_x_or_sp(s, rn);
    let start = first_address(offset, memory, element, vectors.length(), base, s);
    let elements = Elements {
        start,
        memory,
        element,
        pg: &room[..count],
    };
    match load_fault(&elements, rn, s, pages) {
        Some(exception) => Err(AccessStop::Raise(exception)),
        None => {
            load_z(kind, &elements, vectors, zt, pages);
            Ok(())
        }
    }
}

/// Loads all elements of a vector from their bytes.
#[inline(always)]
#[tactic(auto, using(sve_vectors::proofs::Whole::vector_whole))]
fn load_whole_z(kind: LoadType, vectors: &mut Vectors, zt: u8, bytes: &[u8])
    requires zt { zt < 32 }
    requires whole { length_of vectors.old % bytes_in (element_size kind) ≡ 0 }
    requires bytes { length bytes.now
        ≡ length_of vectors.old / bytes_in (element_size kind) * bytes_in (memory_size kind) }
    ensures value { vectors.new ≡ with_vector vectors.old zt (each_element (bytes_in (element_size kind))
        (vector_at vectors.old.registers zt)
        (λ i old. loaded kind (element_of (bytes_in (memory_size kind)) bytes.now i))) }
    ensures long { length (vector_at vectors.old.registers zt) ≡ length_of vectors.old }
{
    load_all(kind, vectors.z_mut(zt), bytes);
}

/// Loads the elements of a vector, where all are active, no check fails and their bytes lie in one page; says
/// whether it did.
#[inline(always)]
fn load_whole(
    kind: LoadType,
    offset: &VectorOffset,
    pg: u8,
    rn: u8,
    zt: u8,
    s: &Scalars,
    vectors: &mut Vectors,
    pages: &Pages,
) -> bool
    requires { IsVectorAccess (form.Load kind offset.now pg rn zt) }
    ensures made { result ≡ true → IsMade (form.Load kind offset.now pg rn zt) s.now
        vectors.old vectors.new pages.now pages.now (Ok tt) }
    ensures left { result ≡ false → vectors.new ≡ vectors.old }
    ensures lengths { KeepsLengths vectors.old vectors.new }
{
    let (memory, element) = (memory_size(kind), element_size(kind));
    let base = read_x_or_sp(s, rn);
    let start = first_address(offset, memory, element, vectors.length(), base, s);
    let elements = Elements {
        start,
        memory,
        element,
        pg: read_p(vectors, pg),
    };
    match whole_elements(&elements, rn, s, pages) {
        Some(bytes) => {
            load_whole_z(kind, vectors, zt, bytes);
            true
        }
        None => false,
    }
}

/// Loads the active elements of a vector, if no check fails.
#[inline]
fn transfer_load(
    kind: LoadType,
    offset: &VectorOffset,
    pg: u8,
    rn: u8,
    zt: u8,
    s: &Scalars,
    vectors: &mut Vectors,
    pages: &Pages,
) -> Result<(), AccessStop>
    requires { IsVectorAccess (form.Load kind offset.now pg rn zt) }
    ensures made { IsMade (form.Load kind offset.now pg rn zt) s.now
        vectors.old vectors.new pages.now pages.now result }
    ensures room { result ≢ Err AccessStop.Memory }
    ensures lengths { KeepsLengths vectors.old vectors.new }
{
    if load_whole(kind, offset, pg, rn, zt, s, vectors, pages) {
        Ok(())
    } else {
        load_checked(kind, offset, pg, rn, zt, s, vectors, pages)
    }
}

/// Stores the low bytes of the active elements of a vector, one after the other, if no check fails.
#[tactic(auto, using(crate::proofs::Faults::can_write))]
fn store_each(
    elements: &Elements,
    rn: u8,
    z: &[u8],
    s: &Scalars,
    pages: &mut Pages,
) -> Result<(), AccessStop>
    requires narrow { bytes_in elements.now.memory ≤ bytes_in elements.now.element }
    requires small { length elements.now.pg.now ≤ 32 }
    requires some { 2 ≤ length elements.now.pg.now }
    requires bits { length z.now ≡ 8 * length elements.now.pg.now }
    ensures made { let x = elements.now in Transfers
        (access_fault None (elements_stored rn x.start x.memory x.element x.pg.now) s.now pages.old.memory)
        (with_elements pages.old.memory x.start x.memory x.element x.pg.now z.now)
        pages.old.memory pages.new.memory result }
    ensures room { let x = elements.now in
        HasRoom (elements_stored rn x.start x.memory x.element x.pg.now) pages.old
        → result ≢ Err AccessStop.Memory }
    ensures owned { let x = elements.now in
        Owns raised_by (element_addresses x.start x.memory x.element x.pg.now) pages.old pages.new result }
{
    match store_fault(elements, rn, s, pages) {
        Some(exception) => Err(AccessStop::Raise(exception)),
        None => match own_elements(elements, pages) {
            Ok(()) => {
                write_elements(elements, z, pages);
                Ok(())
            }
            Err(_) => Err(AccessStop::Memory),
        },
    }
}

/// Stores the low bytes of the active elements of a vector, if no check fails. Where they are one run of
/// bytes, it is written as one.
#[inline]
pub fn store_elements(
    elements: &Elements,
    rn: u8,
    z: &[u8],
    s: &Scalars,
    pages: &mut Pages,
) -> Result<(), AccessStop>
    requires narrow { bytes_in elements.now.memory ≤ bytes_in elements.now.element }
    requires small { length elements.now.pg.now ≤ 32 }
    requires some { 2 ≤ length elements.now.pg.now }
    requires bits { length z.now ≡ 8 * length elements.now.pg.now }
    ensures made { let x = elements.now in Transfers
        (access_fault None (elements_stored rn x.start x.memory x.element x.pg.now) s.now pages.old.memory)
        (with_elements pages.old.memory x.start x.memory x.element x.pg.now z.now)
        pages.old.memory pages.new.memory result }
    ensures room { let x = elements.now in
        HasRoom (elements_stored rn x.start x.memory x.element x.pg.now) pages.old
        → result ≢ Err AccessStop.Memory }
    ensures owned { let x = elements.now in
        Owns raised_by (element_addresses x.start x.memory x.element x.pg.now) pages.old pages.new result }
{
    if elements.are_run() {
        let run = Run {
            address: elements.start,
            size: z.len() as u64,
        };
        store_run(&run, rn, z, s, pages)
    } else {
        store_each(elements, rn, z, s, pages)
    }
}

/// Stores the low bytes of the active elements of a vector, if no check fails.
#[inline]
#[tactic(auto, unfolding(
// The access, the registers after it and the memory.
crate::specs::After::access_of, crate::specs::After::registers_after, crate::specs::After::stored))]
fn transfer_store(
    memory: Elem,
    element: Elem,
    offset: &VectorOffset,
    pg: u8,
    rn: u8,
    zt: u8,
    s: &Scalars,
    vectors: &Vectors,
    pages: &mut Pages,
) -> Result<(), AccessStop>
    requires { IsVectorAccess (form.Store memory element offset.now pg rn zt) }
    ensures made { IsMade (form.Store memory element offset.now pg rn zt) s.now
        vectors.now vectors.now pages.old pages.new result }
    ensures room { HasInstructionRoom (form.Store memory element offset.now pg rn zt) s.now
        vectors.now pages.old → result ≢ Err AccessStop.Memory }
    ensures owned { Owns raised_by (writes_of (form.Store memory element offset.now pg rn zt) s.now
        (length_of vectors.now) vectors.now.registers) pages.old pages.new result }
{
    let (memory, element) = (size_of(memory), size_of(element));
    let base = read_x_or_sp(s, rn);
    let start = first_address(offset, memory, element, vectors.length(), base, s);
    let elements = Elements {
        start,
        memory,
        element,
        pg: read_p(vectors, pg),
    };
    store_elements(&elements, rn, vectors.z(zt), s, pages)
}

/// Reads bytes that can be read.
#[inline]
pub fn read_run(pages: &Pages, address: u64, into: &mut [u8])
    requires { first_without 4 pages.now.memory address (length into.old) ≡ None }
    ensures { into.new ≡ read_bytes pages.now.memory (run_of address (length into.old)) }
{
    match pages.read(address, into) {
        Ok(()) => {}
        Err(_) => unreachable!(),
    }
}

/// The bytes of a register from an address on.
#[inline]
fn run_from(base: u64, times: i32, bytes: usize) -> Run
    requires some { 1 ≤ bytes }
    requires small { bytes ≤ 256 }
    ensures value { run_of result.address result.size ≡ run_of (multiple_from base times bytes) bytes }
    ensures address { result.address ≡ multiple_from base times bytes }
    ensures size { result.size ≡ bytes }
{
    Run {
        address: multiple_from(base, times, bytes),
        size: bytes as u64,
    }
}

/// A register that is loaded and stored whole, by its number.
#[derive(Clone, Copy)]
enum Register {
    Vector(u8),
    Predicate(u8),
}

impl Register {
    /// How many bytes it has.
    #[inline]
    fn size(self, vectors: &Vectors) -> usize
        ensures value { result ≡ register_size self (length_of vectors.now) }
        ensures some { 1 ≤ result }
        ensures small { result ≤ 256 }
    {
        match self {
            Register::Vector(_) => vectors.length(),
            Register::Predicate(_) => vectors.length() / 8,
        }
    }

    /// Its bytes.
    #[inline]
    fn bytes(self, vectors: &Vectors) -> &[u8]
        requires { IsRegister self }
        ensures value { result.now ≡ register_bytes self vectors.now.registers }
        ensures long { length result.now ≡ register_size self (length_of vectors.now) }
    {
        match self {
            Register::Vector(zt) => vectors.z(zt),
            Register::Predicate(pt) => read_p(vectors, pt),
        }
    }

    /// Writes its bytes.
    #[inline]
    fn put(self, bytes: &[u8], vectors: &mut Vectors)
        requires register { IsRegister self }
        requires long { length bytes.now ≡ register_size self (length_of vectors.old) }
        ensures { vectors.new ≡ with_register vectors.old self bytes.now }
    {
        match self {
            Register::Vector(zt) => write_z(vectors, zt, bytes),
            Register::Predicate(pt) => write_p(vectors, pt, bytes),
        }
    }

    /// Fills it with the bytes from an address on, which can be read.
    #[inline]
    #[tactic(auto, using(
    // A slice that is written as a whole.
    sve_vectors::proofs::Whole::vector_whole, sve_vectors::proofs::Whole::predicate_whole))]
    fn fill(self, pages: &Pages, address: u64, vectors: &mut Vectors)
        requires register { IsRegister self }
        requires readable { first_without 4 pages.now.memory address
            (register_size self (length_of vectors.old)) ≡ None }
        ensures { vectors.new ≡ with_register vectors.old self
            (read_bytes pages.now.memory (run_of address (register_size self (length_of vectors.old)))) }
    {
        match self {
            Register::Vector(zt) => read_run(pages, address, vectors.z_mut(zt)),
            Register::Predicate(pt) => read_run(pages, address, vectors.p_mut(pt)),
        }
    }
}

/// The same as `load_register`, for any load.
#[inline(never)]
#[tactic(auto, using(
// What the instruction accesses, and the lengths after it.
crate::proofs::Registers::access_is, crate::proofs::Registers::lengths_kept,
// Where its bytes can be read.
crate::proofs::Faults::can_read_run))]
fn load_register_checked(
    register: Register,
    times: i32,
    rn: u8,
    s: &Scalars,
    vectors: &mut Vectors,
    pages: &Pages,
) -> Result<(), AccessStop>
    requires register { IsRegister register }
    requires rn { rn < 32 }
    ensures made { IsMade (register_access register false times rn) s.now
        vectors.old vectors.new pages.now pages.now result }
    ensures room { result ≢ Err AccessStop.Memory }
    ensures lengths { KeepsLengths vectors.old vectors.new }
{
    let run = run_from(read_x_or_sp(s, rn), times, register.size(vectors));
    match load_fault(&run, rn, s, pages) {
        Some(exception) => Err(AccessStop::Raise(exception)),
        None => {
            register.fill(pages, run.address, vectors);
            Ok(())
        }
    }
}

/// Loads a register, if no check fails.
#[inline]
fn load_register(
    register: Register,
    times: i32,
    rn: u8,
    s: &Scalars,
    vectors: &mut Vectors,
    pages: &Pages,
) -> Result<(), AccessStop>
    requires register { IsRegister register }
    requires rn { rn < 32 }
    ensures made { IsMade (register_access register false times rn) s.now
        vectors.old vectors.new pages.now pages.now result }
    ensures room { result ≢ Err AccessStop.Memory }
    ensures lengths { KeepsLengths vectors.old vectors.new }
{
    let run = run_from(read_x_or_sp(s, rn), times, register.size(vectors));
    match whole_run(&run, rn, s, pages) {
        Some(bytes) => {
            register.put(bytes, vectors);
            Ok(())
        }
        None => load_register_checked(register, times, rn, s, vectors, pages),
    }
}

/// Stores bytes from an address on, if no check fails.
#[inline]
pub fn store_run(
    run: &Run,
    rn: u8,
    bytes: &[u8],
    s: &Scalars,
    pages: &mut Pages,
) -> Result<(), AccessStop>
    requires some { 1 ≤ length bytes.now }
    requires small { length bytes.now ≤ 256 }
    requires size { run.now.size ≡ length bytes.now }
    ensures made { Transfers
        (access_fault None (at_base rn true (run_of run.now.address run.now.size)) s.now pages.old.memory)
        (written pages.old.memory (run_of run.now.address run.now.size) (Some bytes.now))
        pages.old.memory pages.new.memory result }
    ensures room { AreOwned pages.old run.now.address (length bytes.now) → result ≢ Err AccessStop.Memory }
    ensures owned { Owns raised_by (run_of run.now.address run.now.size) pages.old pages.new result }
{
    match place_fault(run, rn, s) {
        Some(exception) => Err(AccessStop::Raise(exception)),
        None => write_bytes(pages, run.address, bytes),
    }
}

/// Stores a register, if no check fails.
#[inline]
#[tactic(auto, using(
// What the instruction accesses, and what it stores.
crate::proofs::Registers::access_is, crate::proofs::Registers::stored_is,
// The registers after it.
crate::proofs::Registers::registers_kept))]
fn store_register(
    register: Register,
    times: i32,
    rn: u8,
    s: &Scalars,
    vectors: &Vectors,
    pages: &mut Pages,
) -> Result<(), AccessStop>
    requires register { IsRegister register }
    requires rn { rn < 32 }
    ensures made { IsMade (register_access register true times rn) s.now
        vectors.now vectors.now pages.old pages.new result }
    ensures room { HasInstructionRoom (register_access register true times rn) s.now vectors.now pages.old
        → result ≢ Err AccessStop.Memory }
    ensures owned { Owns raised_by (writes_of (register_access register true times rn) s.now
        (length_of vectors.now) vectors.now.registers) pages.old pages.new result }
{
    let run = run_from(read_x_or_sp(s, rn), times, register.size(vectors));
    store_run(&run, rn, register.bytes(vectors), s, pages)
}

/// Loads or stores all bytes of a register, if no check fails.
#[inline]
fn transfer_register(
    register: Register,
    store: bool,
    times: i32,
    rn: u8,
    s: &Scalars,
    vectors: &mut Vectors,
    pages: &mut Pages,
) -> Result<(), AccessStop>
    requires register { IsRegister register }
    requires rn { rn < 32 }
    ensures made { IsMade (register_access register store times rn) s.now
        vectors.old vectors.new pages.old pages.new result }
    ensures room { HasInstructionRoom (register_access register store times rn) s.now vectors.old pages.old
        → result ≢ Err AccessStop.Memory }
    ensures owned { Owns raised_by (writes_of (register_access register store times rn) s.now
        (length_of vectors.old) vectors.old.registers) pages.old pages.new result }
    ensures lengths { KeepsLengths vectors.old vectors.new }
{
    if store {
        store_register(register, times, rn, s, vectors, pages)
    } else {
        load_register(register, times, rn, s, vectors, pages)
    }
}

/// The contiguous loads and stores of vectors and predicates: makes all checks of the access, and then the
/// access, which makes the pages that it writes owned, and no others. Any answer but Ok leaves vectors and
/// pages as they were, but that more pages may be owned after `Memory`, which comes only where the access
/// writes a page that is not owned. The scalar registers stay as they are, PC too.
/// Source: DDI 0487, C8.2, LD1B to LD1D, ST1B to ST1D (contiguous), LDR, STR (vector, predicate).
pub fn transfer_vector(
    insn: &VectorAccess,
    scalars: &Scalars,
    vectors: &mut Vectors,
    pages: &mut Pages,
) -> Result<(), AccessStop>
    requires { IsVectorAccess insn.now }
    ensures made { let l = length_of vectors.old in
        Transfers (vector_fault insn.now scalars.now l vectors.old.registers pages.old.memory)
        (after_access insn.now scalars.now l vectors.old.registers pages.old.memory)
        (contents_of vectors.old.registers pages.old) (contents_of vectors.new.registers pages.new) result }
    ensures room { HasRoom (access_of insn.now scalars.now (length_of vectors.old)
        vectors.old.registers) pages.old
        → result ≢ Err AccessStop.Memory }
    ensures owned { Owns raised_by (writes_of insn.now scalars.now (length_of vectors.old)
        vectors.old.registers) pages.old pages.new result }
    ensures kept { KeepsOwned pages.old pages.new }
    ensures lengths { KeepsLengths vectors.old vectors.new }
{
    match insn {
        VectorAccess::Load {
            kind,
            offset,
            pg,
            rn,
            zt,
        } => transfer_load(*kind, offset, *pg, *rn, *zt, scalars, vectors, pages),
        VectorAccess::Store {
            memory,
            element,
            offset,
            pg,
            rn,
            zt,
        } => transfer_store(
            *memory, *element, offset, *pg, *rn, *zt, scalars, vectors, pages,
        ),
        VectorAccess::Vector {
            store,
            vectors: times,
            rn,
            zt,
        } => {
            let register = Register::Vector(*zt);
            transfer_register(register, *store, *times, *rn, scalars, vectors, pages)
        }
        VectorAccess::Predicate {
            store,
            vectors: times,
            rn,
            pt,
        } => {
            let register = Register::Predicate(*pt);
            transfer_register(register, *store, *times, *rn, scalars, vectors, pages)
        }
    }
}
