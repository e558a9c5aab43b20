//! Single instructions with the states before them: `read_vectors` reads a file with one on each line, or
//! gives its first line that is not in the grammar, and `run_vectors` makes the step of each on some workers
//! at once and gives the lines of what they do, in order.
#![tactic(auto)]

mod answer;
mod laws;
mod line;
mod read;
mod registers;
mod run;
mod state;
mod text;
mod vector;
mod words;

pub use laws::{one_fault, one_file, one_line_too_many, one_vector};
pub use read::{VectorFault, read_vectors};
pub use run::run_vectors;
pub use vector::{Field, Vector};
