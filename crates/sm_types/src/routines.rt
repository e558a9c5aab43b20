//! The support routines of the lazy saving scheme of ZA, and the tail of a call, as words of this project's
//! own (AAPCS64, the ZA lazy saving scheme). They change X14 to X17 only; the tail also X0 and X30.
ghost use Rattle.std.specs.Prelude.{◌≡◌, ◌-◌, ◌*◌, ◌^◌, ◌<◌, ℕ, pos, ◌-ℤ◌};
ghost use Rattle.sm_types.specs.Routines as spec;

/// `__arm_tpidr2_save`: saves the slices of ZA of the block at TPIDR2_EL0, where that is not null.
pub const SAVE: [u32; 18] = [
    0xD53B_D0AE,
    0xB400_01EE,
    0x7940_15CF,
    0xB940_0DD0,
    0x2A10_01EF,
    0x3500_018F,
    0xF940_01D0,
    0xB400_0130,
    0x7940_11CE,
    0x3400_00EE,
    0x5280_000F,
    0xE120_6200,
    0x0430_5830,
    0x1100_05EF,
    0x4B0E_01F1,
    0x35FF_FF91,
    0xD65F_03C0,
    0xD420_0020,
];

/// `__arm_za_disable`: saves them, makes TPIDR2_EL0 null and turns ZA off.
pub const DISABLE: [u32; 20] = [
    0xD53B_D0AE,
    0xB400_01EE,
    0x7940_15CF,
    0xB940_0DD0,
    0x2A10_01EF,
    0x3500_01CF,
    0xF940_01D0,
    0xB400_0130,
    0x7940_11CE,
    0x3400_00EE,
    0x5280_000F,
    0xE120_6200,
    0x0430_5830,
    0x1100_05EF,
    0x4B0E_01F1,
    0x35FF_FF91,
    0xD51B_D0BF,
    0xD503_447F,
    0xD65F_03C0,
    0xD420_0020,
];

/// `__arm_tpidr2_restore`: loads the slices of ZA of the block at X0.
pub const RESTORE: [u32; 18] = [
    0xD53B_D0AE,
    0xB500_020E,
    0x7940_140F,
    0xB940_0C10,
    0x2A10_01EF,
    0x3500_018F,
    0xF940_0010,
    0xB400_0130,
    0x7940_100E,
    0x3400_00EE,
    0x5280_000F,
    0xE100_6200,
    0x0430_5830,
    0x1100_05EF,
    0x4B0E_01F1,
    0x35FF_FF91,
    0xD65F_03C0,
    0xD420_0020,
];

/// The bytes to that distance, round 2^28 where it is behind.
fn bytes_around(distance: i64) -> u32
    requires { spec.IsReached distance }
    ensures ahead { (words : ℕ) → distance ≡ pos (4 * words) → result ≡ 4 * words }
    ensures behind { (words : ℕ) → 0 < words → distance ≡ pos 0 -ℤ pos (4 * words)
        → result ≡ 2 ^ 28 - 4 * words }
{
    if distance < 0 {
        (distance + 0x1000_0000) as u32
    } else {
        distance as u32
    }
}

/// The tail of a call, whose block is in X19, with so many bytes from its BL to `__arm_tpidr2_restore`, a
/// multiple of 4 that a BL reaches. `ahead` and `behind` count them in words.
pub fn call_tail(distance: i64) -> [u32; 6]
    requires { spec.IsReached distance }
    ensures ahead { (words : ℕ) → distance ≡ pos (4 * words)
        → result ≡ spec.tail_words (spec.call_word words) }
    ensures behind { (words : ℕ) → 0 < words → distance ≡ pos 0 -ℤ pos (4 * words)
        → result ≡ spec.tail_words (spec.call_word (2 ^ 26 - words)) }
{
    let call = 0x9400_0000 + bytes_around(distance) % 0x1000_0000 / 4;
    [
        0xD503_457F,
        0xD53B_D0AE,
        0xB500_006E,
        0xAA13_03E0,
        call,
        0xD51B_D0BF,
    ]
}

/// The routines are the lists of words that their definitions have.
pub fn routines_are_listed()
    ensures save { SAVE ≡ spec.save_words }
    ensures disable { DISABLE ≡ spec.disable_words }
    ensures restore { RESTORE ≡ spec.restore_words }
{}
