//! The frame of a signal: `deliver` writes it below SP and begins the handler, and `return_from` brings back
//! all that the frame at SP saves. Which signal comes, which are masked, and in how many handlers a thread
//! is, is the kernel's to know.
#![tactic(auto)]

mod delivery;
mod head;
mod in_range;
mod laws;
mod masking;
mod reading;
mod restore;
mod writing;

pub use delivery::{FrameStop, deliver};
pub use in_range::machines_are_in_range;
pub use laws::{delivery_leaves_its_frame, frame_brings_back, return_sees_no_mode};
pub use masking::Masking;
pub use restore::{FrameFault, return_from};
