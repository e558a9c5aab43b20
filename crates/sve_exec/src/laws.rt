//! The law of the count of sign bits.
ghost use Rattle.std.specs.Prelude.{ℕ, ◌<◌};
ghost use Rattle.vector_elements.specs.declared.size.Size.{Size};
ghost use Rattle.vector_elements.specs.Numbers.{bits_in, range_of};
ghost use Rattle.sve_exec.specs.Unary.{leading_signs, HasLeadingSigns};

/// CLS counts the bits of an element below its top bit that equal it, from it down without a break.
pub fn signs_are_counted()
    ensures { (size : Size) (a : ℕ) → a < range_of size
        → HasLeadingSigns (bits_in size) a (leading_signs size a) }
{}
