//! The sizes of the elements that are numbers.
ghost use Rattle.std.specs.Prelude.{◌≡◌};
ghost use Rattle.vector_elements.specs.Numbers.{bytes_in, bits_in, size_in};

use sm_types::Elem;

/// The size of an element: 8, 16, 32 or 64 bits. No arithmetic is on elements of 128.
#[derive(Clone, Copy, Debug, PartialEq, Eq)]
pub enum Size {
    B,
    H,
    S,
    D,
}

impl Size {
    /// Its bytes.
    #[inline(always)]
    pub fn bytes(self) -> usize
        ensures { result ≡ bytes_in self }
    {
        match self {
            Size::B => 1,
            Size::H => 2,
            Size::S => 4,
            Size::D => 8,
        }
    }

    /// Its bits.
    #[inline(always)]
    pub fn bits(self) -> u32
        ensures { result ≡ bits_in self }
    {
        match self {
            Size::B => 8,
            Size::H => 16,
            Size::S => 32,
            Size::D => 64,
        }
    }

    /// The size of elements of a vector, but for those of 128 bits.
    #[inline(always)]
    pub fn of(elem: Elem) -> Option<Size>
        ensures { result ≡ size_in elem }
    {
        match elem {
            Elem::B => Some(Size::B),
            Elem::H => Some(Size::H),
            Elem::S => Some(Size::S),
            Elem::D => Some(Size::D),
            Elem::Q => None,
        }
    }
}
