//! Tests of the libraries by their public calls, of what no line of data reaches: banks, and which thread
//! owns that of a core, memory, vectors, the runs of one thread and the files of their states, the lines of
//! stops, the shared words, host threads that reach them at once, guest threads on several cores, instruction
//! vectors by two workers at once, the object of a source, lazy saving of ZA, and the checker of its rules.
#![tactic(auto)]

#[cfg(test)]
mod abi_runs;
#[cfg(test)]
mod banks;
#[cfg(test)]
mod checkpoints;
#[cfg(test)]
mod core_banks;
#[cfg(test)]
mod cores;
#[cfg(test)]
mod host_threads;
#[cfg(test)]
mod instruction_vectors;
#[cfg(test)]
mod lone_runs;
#[cfg(test)]
mod meeting;
#[cfg(test)]
mod memory;
#[cfg(test)]
mod routine_runs;
#[cfg(test)]
mod shared_words;
#[cfg(test)]
mod sources;
#[cfg(test)]
mod stops;
#[cfg(test)]
mod vectors;
