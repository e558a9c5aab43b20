//! Numbers as vectors.
ghost use Rattle.std.specs.Prelude.{◌≡◌, ◌≤◌, length};
ghost use Rattle.sve_perm.specs.Reduce.{scalar_vector};

/// `d` becomes a number: its low 8 bytes are those of the number, and the others are zero. A number of fewer
/// bits so stands in the low part alone. Source: DDI 0487, J1.1, ZeroExtend, as SADDV to ANDV write their
/// results.
#[tactic(auto, using(crate::proofs::Sums::zero_extended))]
pub fn scalar_to_vector(value: u64, d: &mut [u8])
    requires { 8 ≤ length d.old }
    ensures { d.new ≡ scalar_vector (length d.old) value }
{
    let (low, high) = d.split_at_mut(8);
    low.copy_from_slice(&value.to_le_bytes());
    high.fill(0);
}
