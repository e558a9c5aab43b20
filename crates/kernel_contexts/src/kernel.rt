//! What goes by the version of the kernel alone.
ghost use Rattle.std.specs.Prelude.{◌≡◌, ◌<◌};
ghost use Rattle.kernel_contexts.specs.Kernel.{depth_limit, masked_inside};

use sm_types::Version;

/// How many handlers a thread is in at most.
pub(crate) fn depth_limit(version: Version) -> u32
    ensures { result ≡ depth_limit version }
{
    match version {
        Version::One => 1,
        Version::Two => 64,
    }
}

/// The mask inside the handler of a signal.
pub(crate) fn masked_inside(version: Version, signal: u32, mask: u64) -> u64
    requires { signal < 64 }
    ensures { result ≡ masked_inside version signal mask }
{
    match version {
        Version::One => mask,
        Version::Two => mask | 1 << signal,
    }
}
