//! Vector lengths.
ghost use Rattle.std.specs.Prelude.{◌≡◌, ◌/◌, ◌↔◌, IsSome, IfSome};
ghost use Rattle.sm_types.specs.Length.{IsLength, bits_of};

/// A vector length, of the five that this emulator has (DDI 0487, SVE: VL; SME: SVL).
#[derive(Clone, Copy, Debug, PartialEq, Eq)]
pub enum VecLen {
    Bits128,
    Bits256,
    Bits512,
    Bits1024,
    Bits2048,
}

impl VecLen {
    /// The length of that many bits; `None` exactly where it is none of the five.
    pub fn from_bits(bits: u32) -> Option<VecLen>
        ensures valid { IsSome result ↔ IsLength bits }
        ensures value { IfSome result (λ length. bits_of length ≡ bits) }
    {
        match bits {
            128 => Some(VecLen::Bits128),
            256 => Some(VecLen::Bits256),
            512 => Some(VecLen::Bits512),
            1024 => Some(VecLen::Bits1024),
            2048 => Some(VecLen::Bits2048),
            _ => None,
        }
    }

    /// The length in bits.
    pub fn bits(&self) -> u32
        ensures { result ≡ bits_of self.now }
    {
        match self {
            VecLen::Bits128 => 128,
            VecLen::Bits256 => 256,
            VecLen::Bits512 => 512,
            VecLen::Bits1024 => 1024,
            VecLen::Bits2048 => 2048,
        }
    }

    /// The length in bytes.
    pub fn bytes(&self) -> usize
        ensures { result ≡ bits_of self.now / 8 }
    {
        self.bits() as usize / 8
    }
}
