//! The size of an instruction's elements.
ghost use Rattle.std.specs.Prelude.{◌≡◌};
ghost use Rattle.vector_step.specs.Sizes.{element_size};

use sm_types::Elem;
use vector_elements::Size;

/// The size of an instruction's elements, of which none here has 128 bits.
#[inline(always)]
pub fn element_size(elem: Elem) -> Size
    ensures { result ≡ element_size elem }
{
    match elem {
        Elem::B => Size::B,
        Elem::H => Size::H,
        Elem::S => Size::S,
        Elem::D | Elem::Q => Size::D,
    }
}
