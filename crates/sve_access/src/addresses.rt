//! The sizes of a contiguous access, and where it begins.
ghost use Rattle.std.specs.Prelude.{◌≡◌, ◌+◌, ◌*◌, ◌%◌, ◌^◌, ◌<◌, ◌≤◌};
ghost use Rattle.sve_table.specs.Ranges.{IsVectorOffset};
ghost use Rattle.vector_elements.specs.Numbers.{range_of};
ghost use Rattle.mem_access.specs.Access.{bytes_in as access_bytes};
ghost use Rattle.vector_elements.specs.Numbers.{bytes_in};
ghost use Rattle.sve_access.specs.Contiguous.{size_of, memory_size, element_size, is_signed, loaded};
ghost use Rattle.sve_access.specs.Contiguous.{multiple_from, first_address};

use scalar_exec::{address_at, read_x};
use sm_types::{AccessSize, Elem, LoadType, Scalars, VectorOffset};
use vector_elements::{Size, signed, wrapped};

/// The size of elements; no access of this group has those of 128 bits.
#[inline]
pub fn size_of(elem: Elem) -> Size
    ensures { result ≡ size_of elem }
{
    match elem {
        Elem::B => Size::B,
        Elem::H => Size::H,
        Elem::S => Size::S,
        Elem::D | Elem::Q => Size::D,
    }
}

/// The size of what a load reads of memory for an element.
#[inline(always)]
pub fn memory_size(kind: LoadType) -> Size
    ensures { result ≡ memory_size kind }
{
    match kind {
        LoadType::ByteToB
        | LoadType::ByteToH
        | LoadType::ByteToS
        | LoadType::ByteToD
        | LoadType::SignedByteToD
        | LoadType::SignedByteToS
        | LoadType::SignedByteToH => Size::B,
        LoadType::HalfwordToH
        | LoadType::HalfwordToS
        | LoadType::HalfwordToD
        | LoadType::SignedHalfwordToD
        | LoadType::SignedHalfwordToS => Size::H,
        LoadType::SignedWordToD | LoadType::WordToS | LoadType::WordToD => Size::S,
        LoadType::DoublewordToD => Size::D,
    }
}

/// The size of the element that a load makes of it.
#[inline(always)]
pub fn element_size(kind: LoadType) -> Size
    ensures { result ≡ element_size kind }
{
    match kind {
        LoadType::ByteToB => Size::B,
        LoadType::ByteToH | LoadType::HalfwordToH | LoadType::SignedByteToH => Size::H,
        LoadType::ByteToS
        | LoadType::HalfwordToS
        | LoadType::SignedHalfwordToS
        | LoadType::WordToS
        | LoadType::SignedByteToS => Size::S,
        LoadType::ByteToD
        | LoadType::SignedWordToD
        | LoadType::HalfwordToD
        | LoadType::SignedHalfwordToD
        | LoadType::WordToD
        | LoadType::SignedByteToD
        | LoadType::DoublewordToD => Size::D,
    }
}

/// Whether a load extends by the sign.
#[inline(always)]
fn is_signed(kind: LoadType) -> bool
    ensures { result ≡ is_signed kind }
{
    match kind {
        LoadType::SignedWordToD
        | LoadType::SignedHalfwordToD
        | LoadType::SignedHalfwordToS
        | LoadType::SignedByteToD
        | LoadType::SignedByteToS
        | LoadType::SignedByteToH => true,
        LoadType::ByteToB
        | LoadType::ByteToH
        | LoadType::ByteToS
        | LoadType::ByteToD
        | LoadType::HalfwordToH
        | LoadType::HalfwordToS
        | LoadType::HalfwordToD
        | LoadType::WordToS
        | LoadType::WordToD
        | LoadType::DoublewordToD => false,
    }
}

/// The number that a load reads, as an element.
#[inline(always)]
#[tactic(auto, unfolding(crate::specs::Contiguous::loaded))]
pub fn loaded(kind: LoadType, number: u64) -> u64
    requires { number < range_of (memory_size kind) }
    ensures { result ≡ loaded kind number }
{
    if is_signed(kind) {
        wrapped(element_size(kind), signed(memory_size(kind), number))
    } else {
        number
    }
}

/// An element's size as that of an access.
#[inline]
pub fn access_size(size: Size) -> AccessSize
    ensures { access_bytes result ≡ bytes_in size }
{
    match size {
        Size::B => AccessSize::Byte,
        Size::H => AccessSize::Halfword,
        Size::S => AccessSize::Word,
        Size::D => AccessSize::Doubleword,
    }
}

/// The address so many times so many bytes from a base.
#[inline]
pub fn multiple_from(base: u64, times: i32, bytes: usize) -> u64
    requires { bytes ≤ 256 }
    ensures { result ≡ multiple_from base times bytes }
{
    address_at(base, i64::from(times) * bytes as i64)
}

/// The address of element 0 of an access, at `bytes` bytes of a vector.
#[inline]
#[tactic(auto, unfolding(crate::specs::Contiguous::first_address))]
pub fn first_address(
    offset: &VectorOffset,
    memory: Size,
    element: Size,
    bytes: usize,
    base: u64,
    s: &Scalars,
) -> u64
    requires offset { IsVectorOffset offset.now }
    requires narrow { bytes_in memory ≤ bytes_in element }
    requires small { bytes ≤ 256 }
    ensures { result ≡ first_address offset.now memory element bytes base s.now }
{
    match offset {
        VectorOffset::Vectors(times) => {
            multiple_from(base, *times, bytes / element.bytes() * memory.bytes())
        }
        VectorOffset::Register(rm) => {
            base.wrapping_add(read_x(s, *rm).wrapping_mul(memory.bytes() as u64))
        }
    }
}
