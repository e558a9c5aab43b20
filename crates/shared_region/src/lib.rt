//! The words that guest threads share: what an operation does to them, the histories of operations, and the
//! ports through which a thread reaches them.
//!
//! A history is a list of entries, each an operation of a thread with its answer. It is legal where each
//! answer is that of the word rule on the words that the entries before it leave. The journals of some
//! threads and some words are one history where a legal history ends in these words and has each journal as
//! the part of its thread.
//!
//! `Port` is what a thread's accesses go through. `PlainPort` keeps the words and their history; `ReplayPort`
//! answers from the journal in a ticket.
#![tactic(auto)]

mod laws;
mod plain;
mod port;
mod replay;
mod word_rule;

pub use laws::{chains_join, one_history_grows, plain_history_grows, replay_journal_stays};
pub use plain::{PlainPort, PlainTicket};
pub use port::{Port, PortStop};
pub use replay::{ReplayPort, ReplayTicket};
