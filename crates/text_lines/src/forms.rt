//! The lines of a guest thread's state in a report: their kinds, the form of each, and in which order they
//! stand.
ghost use Rattle.std.specs.Prelude.{◌≡◌};
ghost use Rattle.text_lines.specs.Forms as spec;

use sm_types::Version;

/// What may stand as a field.
#[derive(Clone, Copy)]
pub enum FieldKind {
    /// A number below 2^32.
    Number,
    /// A number below 2^64.
    Long,
    /// 16 hexadecimal digits.
    Value,
    /// 0 or 1.
    Truth,
    /// Four of 0 and 1.
    Flags,
    /// Bytes, two digits each.
    Bytes,
    /// 32 bytes.
    Digest,
}

/// How many lines of a kind stand at its place.
#[derive(Clone, Copy)]
pub enum Often {
    /// One.
    Once,
    /// One or none.
    AtMostOnce,
    /// As many as there are.
    AnyTimes,
}

/// A kind of line.
#[derive(Clone, Copy)]
pub enum LineKind {
    /// Turns made.
    Turns,
    /// The program counter.
    Pc,
    /// A general register that is not zero.
    X,
    /// The stack pointer.
    Sp,
    /// The flags N, Z, C and V.
    Nzcv,
    /// TPIDR_EL0.
    Tpidr,
    /// TPIDR2_EL0.
    Tpidr2,
    /// PSTATE.SM and PSTATE.ZA.
    Svcr,
    /// A vector register that is not all zero.
    Z,
    /// A predicate register that is not all zero.
    P,
    /// The first fault register, where it is not all zero.
    Ffr,
    /// A vector of ZA that is not all zero, where ZA is on.
    Za,
    /// The number of pages, and their digest.
    Memory,
    /// The signals that are held.
    Held,
    /// Whether the thread is in a handler.
    Inside,
    /// The signals that are masked.
    Mask,
    /// The number of handlers that the thread is in.
    Depth,
    /// Whether pending signals were polled.
    Polled,
    /// A handler that is set.
    Handler,
}

/// The form of the lines of a kind: their name, the fields after it, and how often they stand.
#[derive(Clone, Copy)]
pub struct Form {
    /// The first word.
    pub name: &'static [u8],
    /// What stands after it.
    pub fields: &'static [FieldKind],
    /// How many such lines stand together.
    pub often: Often,
}

impl Form {
    /// Such a line stands once.
    fn once(name: &'static [u8], fields: &'static [FieldKind]) -> Form
        ensures name { result.name.now ≡ name.now }
        ensures fields { result.fields.now ≡ fields.now }
        ensures often { result.often ≡ Often.Once }
    {
        Form {
            name,
            fields,
            often: Often::Once,
        }
    }

    /// Any number of such lines stand together.
    fn any(name: &'static [u8], fields: &'static [FieldKind]) -> Form
        ensures name { result.name.now ≡ name.now }
        ensures fields { result.fields.now ≡ fields.now }
        ensures often { result.often ≡ Often.AnyTimes }
    {
        Form {
            name,
            fields,
            often: Often::AnyTimes,
        }
    }
}

/// The form of a kind of line.
pub fn form_of(kind: LineKind) -> Form
    ensures name { result.name.now ≡ spec.name_of kind }
    ensures fields { result.fields.now ≡ spec.fields_of kind }
    ensures often { result.often ≡ spec.often_of kind }
{
    match kind {
        LineKind::Turns => Form::once(b"turns", &[FieldKind::Long]),
        LineKind::Pc => Form::once(b"pc", &[FieldKind::Value]),
        LineKind::X => Form::any(b"x", &[FieldKind::Number, FieldKind::Value]),
        LineKind::Sp => Form::once(b"sp", &[FieldKind::Value]),
        LineKind::Nzcv => Form::once(b"nzcv", &[FieldKind::Flags]),
        LineKind::Tpidr => Form::once(b"tpidr", &[FieldKind::Value]),
        LineKind::Tpidr2 => Form::once(b"tpidr2", &[FieldKind::Value]),
        LineKind::Svcr => Form::once(b"svcr", &[FieldKind::Number]),
        LineKind::Z => Form::any(b"z", &[FieldKind::Number, FieldKind::Bytes]),
        LineKind::P => Form::any(b"p", &[FieldKind::Number, FieldKind::Bytes]),
        LineKind::Ffr => Form {
            name: b"ffr",
            fields: &[FieldKind::Bytes],
            often: Often::AtMostOnce,
        },
        LineKind::Za => Form::any(b"za", &[FieldKind::Number, FieldKind::Bytes]),
        LineKind::Memory => Form::once(b"memory", &[FieldKind::Number, FieldKind::Digest]),
        LineKind::Held => Form::once(b"held", &[FieldKind::Value]),
        LineKind::Inside => Form::once(b"inside", &[FieldKind::Truth]),
        LineKind::Mask => Form::once(b"mask", &[FieldKind::Value]),
        LineKind::Depth => Form::once(b"depth", &[FieldKind::Number]),
        LineKind::Polled => Form::once(b"polled", &[FieldKind::Truth]),
        LineKind::Handler => Form::any(b"handler", &[FieldKind::Number, FieldKind::Value]),
    }
}

/// The lines of a state in the first version.
const LINES_OF_ONE: [LineKind; 17] = [
    LineKind::Turns,
    LineKind::Pc,
    LineKind::X,
    LineKind::Sp,
    LineKind::Nzcv,
    LineKind::Tpidr,
    LineKind::Tpidr2,
    LineKind::Svcr,
    LineKind::Z,
    LineKind::P,
    LineKind::Ffr,
    LineKind::Za,
    LineKind::Memory,
    LineKind::Held,
    LineKind::Inside,
    LineKind::Polled,
    LineKind::Handler,
];

/// Those in the second.
const LINES_OF_TWO: [LineKind; 18] = [
    LineKind::Turns,
    LineKind::Pc,
    LineKind::X,
    LineKind::Sp,
    LineKind::Nzcv,
    LineKind::Tpidr,
    LineKind::Tpidr2,
    LineKind::Svcr,
    LineKind::Z,
    LineKind::P,
    LineKind::Ffr,
    LineKind::Za,
    LineKind::Memory,
    LineKind::Held,
    LineKind::Mask,
    LineKind::Depth,
    LineKind::Polled,
    LineKind::Handler,
];

/// The kinds of the lines of a state in a version of the report, in their order.
#[tactic(auto, unfolding(crate::specs::Forms::state_lines))]
pub fn state_lines(version: Version) -> &'static [LineKind]
    ensures { result.now ≡ spec.state_lines version }
{
    match version {
        Version::One => &LINES_OF_ONE,
        Version::Two => &LINES_OF_TWO,
    }
}
