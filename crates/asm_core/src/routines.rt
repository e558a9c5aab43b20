//! The support routines of the lazy saving of ZA, as `.sme_abi` puts them: one after the other, each with its
//! name.
ghost use Rattle.std.specs.Prelude.{◌≡◌, ◌≤◌};
ghost use Rattle.asm_core.specs.Code as code;

/// A support routine.
#[derive(Clone, Copy)]
pub enum Routine {
    Save,
    Disable,
    Restore,
}

/// The name of a routine.
pub fn name_of(routine: Routine) -> &'static [u8]
    ensures { result.now ≡ (code.named_byte routine).name }
{
    match routine {
        Routine::Save => b"__arm_tpidr2_save",
        Routine::Disable => b"__arm_za_disable",
        Routine::Restore => b"__arm_tpidr2_restore",
    }
}

/// How many bytes of the three stand before a routine's.
pub fn offset_of(routine: Routine) -> u64
    ensures value { result ≡ (code.named_byte routine).offset }
    ensures small { result ≤ 152 }
{
    match routine {
        Routine::Save => 0,
        Routine::Disable => 72,
        Routine::Restore => 152,
    }
}
