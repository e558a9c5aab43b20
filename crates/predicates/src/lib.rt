//! What the SVE instructions on predicates make: the flags of a result, predicates by a pattern, a count or a
//! comparison, their logical operations, and the numbers of elements that they count.
//!
//! A predicate is the slice of its bytes, with a bit for each byte of a vector. An element holds where the
//! bit of its lowest byte is set; what writes a predicate clears the element's other bits. The destination is
//! a slice of its own: where it is a source too, the caller copies that source first. SETFFR is PTRUE of all
//! bytes, and RDFFR and WRFFR are plain copies.
#![tactic(auto)]

mod compare;
mod count_active;
mod element_count;
mod flags;
mod laws;
mod logical;
mod marks;
mod pattern;
mod pattern_predicate;
mod truths;
mod while_loops;

pub use compare::{compare_immediate, compare_vectors};
pub use count_active::active_count;
pub use element_count::{add_lengths, count_down, count_up, element_number, vector_lengths};
pub use flags::result_flags;
pub use laws::floor_power_is_greatest;
pub use logical::{predicate_logical, predicate_logical_flags, predicate_test};
pub use pattern::pattern_count;
pub use pattern_predicate::{predicate_false, predicate_true};
pub use while_loops::predicate_while;
