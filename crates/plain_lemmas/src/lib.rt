//! Small lemmas that the proofs of several crates cite and std does not have: of tests, of options and results, of
//! numbers and of lists. The crate has no function, and stands on std alone.
#![tactic(auto)]
