//! The tables by which instructions are encoded.
#![tactic(auto, unfolding(a64_table::specs::Table::scalar, sve_table::specs::Table::vector))]

ghost use Rattle.std.specs.Prelude.{◌≡◌, ℕ, Option};
ghost use Rattle.sm_types.specs.declared.insn.Insn.{Insn};
ghost use Rattle.insn_forms.specs.declared.number.Parts.{Parts};
ghost use Rattle.insn_forms.specs.Tables.{Table, numbers_in};
ghost use Rattle.insn_forms.proofs.Tables.{IsTable};
ghost use Rattle.a64_table.specs.Numbers.{number_of as scalar_number};
ghost use Rattle.a64_table.specs.Parts.{parts_of as scalar_parts};
ghost use Rattle.a64_table.specs.Table.{scalar};
ghost use Rattle.a64_table.proofs.Checks.{is_table as scalar_is_table, same_operation as same_scalar};
ghost use Rattle.sve_table.specs.Numbers.{number_of as vector_number};
ghost use Rattle.sve_table.specs.Parts.{parts_of as vector_parts};
ghost use Rattle.sve_table.specs.Table.{vector};
ghost use Rattle.sve_table.proofs.Checks.{is_table as vector_is_table, same_operation as same_vector};

use a64_table::{Operation, SCALAR_LINES};
use insn_forms::{Line, Parts};
use sm_types::Insn;
use sve_table::{VECTOR_LINES, VectorOperation};

/// The operations of a table, which tell its lines apart.
pub trait TableOperation: Copy + 'static {
    /// The table.
    ghost table: { Table Self Insn };

    /// The operation of an instruction and the numbers of its fields, where the table has the instruction.
    ghost parts: { Insn → Option (Parts Self) };

    /// The number of an operation.
    ghost number: { Self → ℕ };

    /// The lines of the table.
    fn lines() -> &'static [Line<Self>]
        ensures { result.now ≡ table.lines };

    /// The operation of the instruction and the numbers of its fields.
    fn parts_of(insn: &Insn) -> Option<Parts<Self>>
        ensures { result ≡ parts insn.now };

    /// The number of the operation.
    fn number_of(self) -> u32
        ensures { result ≡ number self };

    /// Whether the word meets the condition of the operation.
    fn fits(self, word: u32) -> bool
        ensures { result ≡ table.fits self (numbers_in word) };

    /// A word and the instruction that it means are made of each other, by the parts.
    ghost is_table: { IsTable table parts };

    /// No two operations have one number.
    ghost same_operation: { (a b : Self) → number a ≡ number b → a ≡ b };
}

impl TableOperation for Operation {
    ghost table = { scalar };

    ghost parts = { scalar_parts };

    ghost number = { scalar_number };

    ghost is_table = { scalar_is_table };

    ghost same_operation = { same_scalar };

    fn lines() -> &'static [Line<Operation>] {
        &SCALAR_LINES
    }

    fn parts_of(insn: &Insn) -> Option<Parts<Operation>> {
        a64_table::parts_of(insn)
    }

    fn number_of(self) -> u32 {
        a64_table::number_of(self)
    }

    fn fits(self, word: u32) -> bool {
        a64_table::condition(self, word)
    }
}

impl TableOperation for VectorOperation {
    ghost table = { vector };

    ghost parts = { vector_parts };

    ghost number = { vector_number };

    ghost is_table = { vector_is_table };

    ghost same_operation = { same_vector };

    fn lines() -> &'static [Line<VectorOperation>] {
        &VECTOR_LINES
    }

    fn parts_of(insn: &Insn) -> Option<Parts<VectorOperation>> {
        sve_table::parts_of(insn)
    }

    fn number_of(self) -> u32 {
        sve_table::number_of(self)
    }

    fn fits(self, word: u32) -> bool {
        sve_table::condition(self, word)
    }
}
