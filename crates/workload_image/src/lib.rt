//! The images of the workload: `load_source` assembles the source of a number and loads the file of its
//! object. A source up to number 20,000 is never refused.
#![tactic(auto)]

mod image;

pub use image::load_source;
