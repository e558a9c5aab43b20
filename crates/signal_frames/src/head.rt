//! The size of a frame, and the fields of its head.
ghost use Rattle.std.specs.Prelude.{◌≡◌, ◌+◌, ◌<◌, ◌≤◌, length};
ghost use Rattle.signal_frames.specs.Layout.{frame_tag, head_size, frame_size};
ghost use Rattle.machine_step.specs.System.{bit_at};
ghost use Rattle.signal_frames.specs.Saved.{number_at, has_modes, has_sizes, is_nested, has_masking};
ghost use Rattle.signal_frames.specs.Saved.{is_head, saved_scalars, saved_masking};
ghost use Rattle.signal_frames.specs.Saved.{saved_streaming, saved_za_on};

use crate::masking::Masking;
use byteorder::{ByteOrder, LittleEndian};
use sm_types::{Scalars, Version};

/// What a return expects of a frame: its version, the depth that the saved one must be below, and VL and SVL
/// in bytes.
#[derive(Clone, Copy)]
pub struct Expected {
    pub version: Version,
    pub depth: u32,
    pub vl: u64,
    pub svl: u64,
}

/// Where the size of the frame stands.
const SIZE: usize = 8;
/// Where the signal stands.
const SIGNAL: usize = 12;
/// Where X0 stands.
const X0: usize = 16;
/// Where SP stands.
const SP: usize = 264;
/// Where PC stands.
const PC: usize = 272;
/// Where NZCV stands.
const NZCV: usize = 280;
/// Where SVCR stands.
const SVCR: usize = 288;
/// Where TPIDR2_EL0 stands.
pub(crate) const TPIDR2: usize = 296;
/// Where TPIDR_EL0 stands.
pub(crate) const TPIDR: usize = 304;
/// Where the vector length stands, in bytes.
const LENGTH: usize = 312;
/// Where the streaming vector length stands, in bytes.
const ARRAY_SIZE: usize = 316;
/// Where the mask stands, in version 2.
const MASK: usize = 320;
/// Where the depth stands, in version 2.
const DEPTH: usize = 328;
/// Where four zeros stand, in version 2.
const ZEROS: usize = 332;

/// The number whose bytes are `SMEFRAM1` or `SMEFRAM2`, the first of them the lowest.
pub(crate) fn tag(version: Version) -> u64
    ensures { result ≡ frame_tag version }
{
    match version {
        Version::One => 0x314d_4152_4645_4d53,
        Version::Two => 0x324d_4152_4645_4d53,
    }
}

/// How many bytes stand before those of the vectors.
pub(crate) fn head_size(version: Version) -> u64
    ensures value { result ≡ head_size version }
    ensures least { 320 ≤ result }
    ensures small { result ≤ 336 }
{
    match version {
        Version::One => 320,
        Version::Two => 336,
    }
}

/// How many bytes a frame has, with vectors of `vector_size` bytes and an array of `size` vectors.
pub(crate) fn frame_size(version: Version, vector_size: u64, size: u64, za_on: bool) -> u64
    requires vector_size { vector_size ≤ 256 }
    requires size { size ≤ 256 }
    ensures value { result ≡ frame_size version vector_size size za_on }
    ensures small { result ≤ 74608 }
{
    let array = if za_on { size * size } else { 0 };
    head_size(version) + (34 * vector_size + 32 + array)
}

/// The number of 4 bytes at an offset.
#[tactic(auto, unfolding(crate::specs::Saved::number_at))]
fn u32_at(head: &[u8], offset: usize) -> u32
    requires { offset + 4 ≤ length head.now }
    ensures { result ≡ number_at head.now offset 4 }
{
    LittleEndian::read_u32(&head[offset..])
}

/// The number of 8 bytes at an offset.
#[tactic(auto, unfolding(crate::specs::Saved::number_at))]
pub(crate) fn u64_at(head: &[u8], offset: usize) -> u64
    requires { offset + 8 ≤ length head.now }
    ensures { result ≡ number_at head.now offset 8 }
{
    LittleEndian::read_u64(&head[offset..])
}

/// A bit of a number.
fn bit(value: u64, place: u32) -> bool
    requires { place < 64 }
    ensures { result ≡ bit_at value place }
{
    (value >> place) % 2 == 1
}

/// The saved PSTATE.SM.
pub(crate) fn saved_streaming(head: &[u8]) -> bool
    requires { 320 ≤ length head.now }
    ensures { result ≡ saved_streaming head.now }
{
    bit(u64_at(head, SVCR), 0)
}

/// The saved PSTATE.ZA.
pub(crate) fn saved_za_on(head: &[u8]) -> bool
    requires { 320 ≤ length head.now }
    ensures { result ≡ saved_za_on head.now }
{
    bit(u64_at(head, SVCR), 1)
}

/// The saved general registers, SP, PC and flags.
#[tactic(auto, unfolding(crate::specs::Saved::saved_scalars))]
pub(crate) fn saved_scalars(head: &[u8]) -> Scalars
    requires { 320 ≤ length head.now }
    ensures { result ≡ saved_scalars head.now }
{
    let mut x = [0; 31];
    LittleEndian::read_u64_into(&head[X0..SP], &mut x);
    let nzcv = u64_at(head, NZCV);
    Scalars {
        x,
        sp: u64_at(head, SP),
        pc: u64_at(head, PC),
        n: bit(nzcv, 31),
        z: bit(nzcv, 30),
        c: bit(nzcv, 29),
        v: bit(nzcv, 28),
    }
}

/// Tells whether SVCR and NZCV have no other bits than those of the modes and of the flags.
#[tactic(auto, unfolding(crate::specs::Saved::has_modes))]
fn has_modes(head: &[u8]) -> bool
    requires { 320 ≤ length head.now }
    ensures { result ≡ has_modes head.now }
{
    let nzcv = u64_at(head, NZCV);
    u64_at(head, SVCR) < 4 && nzcv % 0x1000_0000 == 0 && nzcv < 0x1_0000_0000
}

/// Tells whether the lengths are those of the saved mode, and the size of the frame is theirs.
#[tactic(auto, unfolding(crate::specs::Saved::has_sizes))]
fn has_sizes(head: &[u8], expected: Expected) -> bool
    requires head { 320 ≤ length head.now }
    requires vl { expected.vl ≤ 256 }
    requires svl { expected.svl ≤ 256 }
    ensures { result ≡ has_sizes expected head.now }
{
    let length = u64::from(u32_at(head, LENGTH));
    let size = expected.svl;
    let due = if saved_streaming(head) {
        size
    } else {
        expected.vl
    };
    length == due
        && u64::from(u32_at(head, ARRAY_SIZE)) == size
        && saved_size(head) == frame_size(expected.version, length, size, saved_za_on(head))
}

/// The saved size of the frame.
pub(crate) fn saved_size(head: &[u8]) -> u64
    requires { 320 ≤ length head.now }
    ensures { result ≡ number_at head.now 8 4 }
{
    u64::from(u32_at(head, SIZE))
}

/// The saved vector length, in bytes.
pub(crate) fn saved_length(head: &[u8]) -> u64
    requires { 320 ≤ length head.now }
    ensures { result ≡ number_at head.now 312 4 }
{
    u64::from(u32_at(head, LENGTH))
}

/// Tells whether the mask is one of signals, the depth is below that of the thread, and zeros follow.
#[tactic(auto, unfolding(crate::specs::Saved::is_nested))]
fn is_nested(head: &[u8], depth: u32) -> bool
    requires { 336 ≤ length head.now }
    ensures { result ≡ is_nested depth head.now }
{
    let mask = u64_at(head, MASK);
    mask % 2 == 0
        && mask < 0x8000_0000_0000_0000
        && u32_at(head, DEPTH) < depth
        && u32_at(head, ZEROS) == 0
}

/// Tells whether the fields that version 2 has besides are those of a frame.
fn has_masking(head: &[u8], version: Version, depth: u32) -> bool
    requires { version ≡ Version.Two → 336 ≤ length head.now }
    ensures { result ≡ has_masking version depth head.now }
{
    match version {
        Version::One => true,
        Version::Two => is_nested(head, depth),
    }
}

/// The saved mask and depth, in a frame that has them.
fn nested_masking(head: &[u8]) -> Masking
    requires { 336 ≤ length head.now }
    ensures { result ≡ saved_masking Version.Two head.now }
{
    Masking {
        mask: u64_at(head, MASK),
        depth: u32_at(head, DEPTH),
    }
}

/// The saved mask and depth.
pub(crate) fn saved_masking(head: &[u8], version: Version) -> Masking
    requires { version ≡ Version.Two → 336 ≤ length head.now }
    ensures { result ≡ saved_masking version head.now }
{
    match version {
        Version::One => Masking { mask: 0, depth: 0 },
        Version::Two => nested_masking(head),
    }
}

/// Tells whether the fields are those of a frame.
#[tactic(auto, unfolding(crate::specs::Saved::is_head))]
pub(crate) fn is_head(head: &[u8], expected: Expected) -> bool
    requires head { 320 ≤ length head.now }
    requires nested { expected.version ≡ Version.Two → 336 ≤ length head.now }
    requires vl { expected.vl ≤ 256 }
    requires svl { expected.svl ≤ 256 }
    ensures { result ≡ is_head expected head.now }
{
    let signal = u32_at(head, SIGNAL);
    u64_at(head, 0) == tag(expected.version)
        && has_modes(head)
        && has_sizes(head, expected)
        && 1 <= signal
        && signal <= 62
        && has_masking(head, expected.version, expected.depth)
}
