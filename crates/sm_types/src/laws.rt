//! The laws of an object's place and of options.
ghost use Rattle.std.specs.Prelude.{◌≡◌};
ghost use Rattle.sm_types.specs.Objects.{text_address};
ghost use Rattle.sm_types.specs.Options.{numbers_of};
ghost use Rattle.sm_types.specs.declared.config.Config.{Config};

use crate::object::TEXT_ADDRESS;

/// The address of an object's text is the number that its definitions have.
pub fn one_text_address()
    ensures { TEXT_ADDRESS ≡ text_address }
{}

/// Options with the same numbers are the same.
pub fn same_numbers()
    ensures { (a b : Config) → numbers_of a ≡ numbers_of b → a ≡ b }
{}
