//! A vector: an instruction, and what is not zero before it.
ghost use Rattle.std.specs.Prelude.{◌≡◌, ◌<◌};
ghost use Rattle.sve_vectors.specs.Lengths.{current_bytes};
ghost use Rattle.vector_runner.specs.Field as spec;
ghost use Rattle.vector_runner.specs.Told.{field_told};

use sm_types::{Bytes, VecLen};

/// A field of a state. A register of a file has its number first; bytes have the lowest first.
#[derive(Drop)]
pub enum Field {
    /// A general register.
    X(u8, u64),
    /// The stack pointer.
    Sp(u64),
    /// The flags N, Z, C and V.
    Nzcv(bool, bool, bool, bool),
    /// TPIDR_EL0.
    Tpidr(u64),
    /// TPIDR2_EL0.
    Tpidr2(u64),
    /// PSTATE.SM and PSTATE.ZA.
    Svcr(bool, bool),
    /// A vector register.
    Z(u8, Bytes),
    /// A predicate register.
    P(u8, Bytes),
    /// The first fault register.
    Ffr(Bytes),
    /// A vector of ZA.
    Za(u8, Bytes),
    /// The bytes with which the data begin.
    M(Bytes),
}

/// An instruction, and the fields of the state before it that are not zero, in the order of a line.
#[derive(Drop)]
pub struct Vector {
    pub(crate) word: u32,
    pub(crate) fields: Vec<Field>,
}

/// PSTATE.SM and PSTATE.ZA.
#[derive(Clone, Copy)]
pub struct Modes {
    pub streaming: bool,
    pub za_on: bool,
}

/// The length of a vector in bytes, in a mode.
pub fn length_in(vl: VecLen, svl: VecLen, streaming: bool) -> usize
    ensures { result ≡ current_bytes vl svl streaming }
{
    if streaming { svl.bytes() } else { vl.bytes() }
}

impl Field {
    /// The modes after this field, where those before it say these.
    pub(crate) fn modes_after(&self, modes: Modes) -> Modes
        ensures { result ≡ spec.modes_after modes (field_told self.now) }
    {
        match self {
            Field::Svcr(streaming, za_on) => Modes {
                streaming: *streaming,
                za_on: *za_on,
            },
            _ => modes,
        }
    }

    /// The place in the order of a line.
    #[tactic(auto, unfolding(crate::specs::Field::rank))]
    pub(crate) fn rank(&self) -> usize
        ensures is { result ≡ spec.rank (field_told self.now) }
        ensures small { result < 512 }
    {
        match self {
            Field::X(n, _) => usize::from(*n),
            Field::Sp(_) => 31,
            Field::Nzcv(..) => 32,
            Field::Tpidr(_) => 33,
            Field::Tpidr2(_) => 34,
            Field::Svcr(..) => 35,
            Field::Z(n, _) => 36 + usize::from(*n),
            Field::P(n, _) => 68 + usize::from(*n),
            Field::Ffr(_) => 84,
            Field::Za(n, _) => 85 + usize::from(*n),
            Field::M(_) => 341,
        }
    }

    /// Tells whether a state of these lengths, in these modes, has the field.
    #[tactic(auto, unfolding(crate::specs::Field::fits))]
    pub(crate) fn fits(&self, vl: VecLen, svl: VecLen, modes: Modes) -> bool
        ensures { result ≡ spec.fits vl svl modes (field_told self.now) }
    {
        let length = length_in(vl, svl, modes.streaming);
        match self {
            Field::X(n, _) => *n < 31,
            Field::Z(n, bytes) => *n < 32 && bytes.len() == length,
            Field::P(n, bytes) => *n < 16 && bytes.len() == length / 8,
            Field::Ffr(bytes) => bytes.len() == length / 8,
            Field::Za(n, bytes) => {
                modes.za_on && usize::from(*n) < svl.bytes() && bytes.len() == svl.bytes()
            }
            Field::M(bytes) => 1 <= bytes.len() && bytes.len() <= 4096,
            Field::Sp(_) | Field::Nzcv(..) | Field::Tpidr(_) | Field::Tpidr2(_) | Field::Svcr(..) =>
                true,
        }
    }
}
