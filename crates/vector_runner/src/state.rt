//! The state that a vector says.
ghost use Rattle.std.specs.Prelude.{◌≡◌, ◌∷◌, ◌<◌, ◌/◌, [], true, All, IfOk, OnOk, length, map, replicate};
ghost use Rattle.sve_vectors.specs.Predicates.{truths_of};
ghost use Rattle.sve_vectors.specs.Lengths.{vector_bytes};
ghost use Rattle.sve_vectors.specs.State.{length_of, with_vector, with_predicate, with_ffr};
ghost use Rattle.za_array.specs.Array.{with_array_vector};
ghost use Rattle.paged_memory.specs.Memory.{zero_page};
ghost use Rattle.vector_runner.specs.Field.{fits, modes_of, modes_with};
ghost use Rattle.vector_runner.specs.State as spec;
ghost use Rattle.vector_runner.specs.State.{page_seen, state_of, with_field, with_fields};
ghost use Rattle.vector_runner.specs.Prepared.{IsFor, core_in};
ghost use Rattle.vector_runner.specs.Told.{field_told, vector_told};

use crate::vector::{Field, Modes, Vector};
use machine_step::Machine;
use mem_access::Bank;
use paged_memory::{PageImage, PageList, Pages};
use sm_types::{Bytes, Memory, Scalars, VecLen};
use std::alloc::{AllocError, Global};
use sve_vectors::Vectors;
use za_array::Za;

/// Where the instruction stands.
const CODE: u64 = 0x20000;
/// Where the data stand.
pub const DATA: u64 = 0x10000;

/// The machine, and the bank that it is lent.
#[derive(Drop)]
pub struct State {
    pub machine: Machine,
    pub bank: Bank,
}

/// So many zeros.
fn zeros(alloc: Global, count: usize) -> Result<Bytes, AllocError>
    ensures { IfOk result (λ bytes. bytes.items ≡ replicate count 0) }
{
    let bytes = vec![in alloc; 0u8; count]?;
    Ok(bytes)
}

/// The page of a word, with zeros after it.
#[tactic(auto, unfolding(crate::specs::State::code_page))]
fn code_page(alloc: Global, word: u32) -> Result<Bytes, AllocError>
    ensures { IfOk result (λ bytes. bytes.items ≡ spec.code_page word) }
{
    let mut bytes = Vec::from_slice(alloc, &word.to_le_bytes())?;
    let mut rest = zeros(alloc, 4092)?;
    bytes.append(&mut rest)?;
    Ok(bytes)
}

/// The page of the data, of zeros, and that of a word.
#[tactic(auto, unfolding(paged_memory::specs::Memory::zero_page))]
fn page_list(alloc: Global, word: u32) -> Result<PageList, AllocError>
    ensures { IfOk result (λ list. map page_seen list.items ≡ spec.both_pages word) }
{
    let data = zeros(alloc, 4096)?;
    let code = code_page(alloc, word)?;
    let mut list = Vec::new(alloc);
    list.push(PageImage {
        address: DATA,
        flags: 6,
        bytes: data,
    })?;
    list.push(PageImage {
        address: CODE,
        flags: 5,
        bytes: code,
    })?;
    Ok(list)
}

/// The memory of a word, where the data are zero.
fn pages_with(alloc: Global, word: u32) -> Result<Pages, Memory>
    ensures { IfOk result (λ pages. pages.memory ≡ spec.memory_with word) }
{
    match page_list(alloc, word) {
        Ok(list) => Pages::from_pages(alloc, &list),
        Err(_) => Err(Memory),
    }
}

/// Registers of zeros, with PC at the instruction.
#[tactic(auto, unfolding(crate::specs::State::zero_scalars))]
fn zero_scalars() -> Scalars
    ensures { result ≡ spec.zero_scalars }
{
    Scalars {
        x: [0; 31],
        sp: 0,
        pc: CODE,
        n: false,
        z: false,
        c: false,
        v: false,
    }
}

/// Sets a vector.
fn set_z(vectors: &mut Vectors, n: u8, bytes: &[u8])
    requires n { n < 32 }
    requires long { length bytes.now ≡ length_of vectors.old }
    ensures { vectors.new ≡ with_vector vectors.old n bytes.now }
{
    vectors.z_mut(n).copy_from_slice(bytes);
}

/// Sets a predicate.
fn set_p(vectors: &mut Vectors, n: u8, bytes: &[u8])
    requires n { n < 16 }
    requires long { length bytes.now ≡ length_of vectors.old / 8 }
    ensures { vectors.new ≡ with_predicate vectors.old n (truths_of bytes.now) }
{
    vectors.p_mut(n).copy_from_slice(bytes);
}

/// Sets FFR.
fn set_ffr(vectors: &mut Vectors, bytes: &[u8])
    requires { length bytes.now ≡ length_of vectors.old / 8 }
    ensures { vectors.new ≡ with_ffr vectors.old (truths_of bytes.now) }
{
    vectors.ffr_mut().copy_from_slice(bytes);
}

/// Sets a vector of ZA.
fn set_za(za: &mut Za, n: u8, bytes: &[u8])
    requires n { n < vector_bytes za.old.svl }
    requires long { length bytes.now ≡ vector_bytes za.old.svl }
    ensures { za.new ≡ with_array_vector za.old n bytes.now }
{
    za.vector_mut(usize::from(n)).copy_from_slice(bytes);
}

impl State {
    /// The state of a word in these modes, in which all else is zero.
    #[tactic(auto, unfolding(crate::specs::State::blank))]
    fn blank(
        alloc: Global,
        vl: VecLen,
        svl: VecLen,
        modes: Modes,
        word: u32,
    ) -> Result<State, Memory>
        ensures state { IfOk result (λ s. core_in s ≡ spec.blank vl svl modes word) }
        ensures modes { IfOk result (IsFor vl svl modes) }
    {
        let mut bank = Bank::new(alloc, vl, svl)?;
        bank.vectors.set_streaming(modes.streaming);
        let machine = Machine {
            scalars: zero_scalars(),
            streaming: modes.streaming,
            za_on: modes.za_on,
            tpidr: 0,
            tpidr2: 0,
            pages: pages_with(alloc, word)?,
        };
        Ok(State { machine, bank })
    }

    /// Sets what a field says.
    #[tactic(auto, unfolding(crate::specs::Field::fits))]
    fn set_field(
        &mut self,
        vl: VecLen,
        svl: VecLen,
        modes: Modes,
        field: &Field,
    ) -> Result<(), Memory>
        requires modes { IsFor vl svl modes self.old }
        requires fits { fits vl svl modes (field_told field.now) ≡ true }
        ensures state { OnOk result (core_in self.new
            ≡ with_field (core_in self.old) (field_told field.now)) }
        ensures modes { IsFor vl svl modes self.new }
    {
        match field {
            Field::X(n, value) => self.machine.scalars.x[usize::from(*n)] = *value,
            Field::Sp(value) => self.machine.scalars.sp = *value,
            Field::Nzcv(n, z, c, v) => {
                self.machine.scalars.n = *n;
                self.machine.scalars.z = *z;
                self.machine.scalars.c = *c;
                self.machine.scalars.v = *v;
            }
            Field::Tpidr(value) => self.machine.tpidr = *value,
            Field::Tpidr2(value) => self.machine.tpidr2 = *value,
            Field::Svcr(..) => {}
            Field::Z(n, bytes) => set_z(&mut self.bank.vectors, *n, bytes.as_slice()),
            Field::P(n, bytes) => set_p(&mut self.bank.vectors, *n, bytes.as_slice()),
            Field::Ffr(bytes) => set_ffr(&mut self.bank.vectors, bytes.as_slice()),
            Field::Za(n, bytes) => set_za(&mut self.bank.za, *n, bytes.as_slice()),
            Field::M(bytes) => match self.machine.pages.write(DATA, bytes.as_slice()) {
                Ok(()) => {}
                Err(_) => return Err(Memory),
            },
        }
        Ok(())
    }

    /// Sets what each of some fields says.
    fn set_fields(
        &mut self,
        vl: VecLen,
        svl: VecLen,
        modes: Modes,
        fields: &[Field],
    ) -> Result<(), Memory>
        requires modes { IsFor vl svl modes self.old }
        requires fits { All (λ f. fits vl svl modes (field_told f) ≡ true) fields.now }
        ensures state { OnOk result (core_in self.new
            ≡ with_fields (core_in self.old) (map field_told fields.now)) }
        ensures modes { IsFor vl svl modes self.new }
    {
        for field in fields {
            self.set_field(vl, svl, modes, field)?;
        }
        Ok(())
    }

    /// The state that a vector says. `Memory` is want of memory.
    #[tactic(auto, unfolding(crate::specs::State::state_of))]
    pub fn of(alloc: Global, vl: VecLen, svl: VecLen, vector: &Vector) -> Result<State, Memory>
        requires { All (λ f. fits vl svl (modes_of (vector_told vector.now).fields) f ≡ true)
            (vector_told vector.now).fields }
        ensures state { IfOk result (λ s. core_in s ≡ state_of vl svl (vector_told vector.now)) }
        ensures modes { IfOk result (IsFor vl svl (modes_of (vector_told vector.now).fields)) }
    {
        let modes = modes_of(vector.fields.as_slice());
        let mut state = State::blank(alloc, vl, svl, modes, vector.word)?;
        state.set_fields(vl, svl, modes, vector.fields.as_slice())?;
        Ok(state)
    }
}

/// The modes that fields say; both are off where none does.
fn modes_of(fields: &[Field]) -> Modes
    ensures { result ≡ modes_of (map field_told fields.now) }
{
    let mut modes = Modes {
        streaming: false,
        za_on: false,
    };
    for field in fields {
        modes = field.modes_after(modes);
    }
    modes
}
