//! The group of an instruction.
#![tactic(auto, unfolding(crate::specs::Groups::is_vector_group))]

ghost use Rattle.std.specs.Prelude.{◌≡◌};
ghost use Rattle.sve_table.specs.Groups.{is_vector_group};

use sm_types::Insn;

/// Whether the instruction is of a group of SVE or SME (DDI 0487, C4.1), and so has its rows in this table.
pub fn is_vector(insn: &Insn) -> bool
    ensures { result ≡ is_vector_group insn.now }
{
    matches!(
        insn,
        Insn::VectorArithmetic(_)
            | Insn::VectorLogical(_)
            | Insn::PredicatedBinary(_)
            | Insn::MultiplyAdd(_)
            | Insn::PredicatedUnary(_)
            | Insn::VectorShift(_)
            | Insn::VectorCopy(_)
            | Insn::VectorPermute(_)
            | Insn::VectorReduction(_)
            | Insn::VectorCompare(_)
            | Insn::Predicate(_)
            | Insn::PredicateCount(_)
            | Insn::ElementCount(_)
            | Insn::VectorAccess(_)
            | Insn::Sve2(_)
            | Insn::Mode(_)
            | Insn::ArrayAccess(_)
            | Insn::TileAccess(_)
            | Insn::TileMove(_)
            | Insn::TileAdd(_)
            | Insn::OuterProduct(_)
            | Insn::StreamingLength(_)
    )
}
