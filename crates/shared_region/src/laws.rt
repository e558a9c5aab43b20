//! How one history of journals and words grows, and what accesses one after another come to.
ghost use Rattle.std.specs.Prelude.{◌≡◌, ℕ, List, [], ◌∷◌, ◌++◌, map, Some, slice_get, slice_set};
ghost use Rattle.sm_types.specs.declared.shared_op.SharedOp.{SharedOp};
ghost use Rattle.sm_types.specs.declared.shared_op.Event.{Event};
ghost use Rattle.sm_types.specs.declared.shared_words.Entry.{Entry};
ghost use Rattle.sm_types.specs.declared.shared_words.Words.{Words};
ghost use Rattle.shared_region.specs.WordRule.{applied, answer_to, zero_words};
ghost use Rattle.shared_region.specs.History.{AreOneHistory, event_of, words_after};
ghost use Rattle.shared_region.specs.Chain.{Chain};
ghost use Rattle.shared_region.specs.Ports.{PlainWords, PlainEvents, ReplayEvents};

use crate::plain::PlainPort;
use crate::port::Port;
use crate::replay::ReplayPort;

/// Journals that are all empty are one history with words that are all zero. Where some journals and words
/// are one history, so are the words after an operation, and the journals with that operation and its answer
/// at the end of any one of them.
pub fn one_history_grows()
    ensures begins { (journals : List (List Event))
        → ((t : ℕ) (journal : List Event) → slice_get journals t ≡ Some journal → journal ≡ [])
        → AreOneHistory journals zero_words }
    ensures grows { (journals : List (List Event)) (words : Words)
        (t : ℕ) (journal : List Event) (op : SharedOp)
        → AreOneHistory journals words → slice_get journals t ≡ Some journal
        → AreOneHistory
        (slice_set journals t (journal ++ event_of op (answer_to words op) ∷ [])) (applied words op) }
{}

/// The accesses of two runs, one after the other, are those of one run.
pub fn chains_join<P: Port>()
    ensures { (p r q : P) (t s u : P.Ticket) (es fs : List Entry)
        → Chain P.gives p t es r s → Chain P.gives r s fs q u → Chain P.gives p t (es ++ fs) q u }
{}

/// Accesses through a plain port make its words from those before, and stand at the end of its history.
pub fn plain_history_grows()
    ensures words { (p q : PlainWords) (t u : PlainEvents) (es : List Entry)
        → Chain ⟦<PlainPort as Port>⟧.gives p t es q u → q.words ≡ words_after p.words es }
    ensures history { (p q : PlainWords) (t u : PlainEvents) (es : List Entry)
        → Chain ⟦<PlainPort as Port>⟧.gives p t es q u → q.history ≡ p.history ++ es }
{}

/// Accesses that a journal answers are its next events, and what is left follows them.
pub fn replay_journal_stays()
    ensures ahead { (p q : ReplayPort) (t u : ReplayEvents) (es : List Entry)
        → Chain ⟦<ReplayPort as Port>⟧.gives p t es q u → t.ahead ≡ map (λ e. e.event) es ++ u.ahead }
    ensures answered { (p q : ReplayPort) (t u : ReplayEvents) (es : List Entry)
        → Chain ⟦<ReplayPort as Port>⟧.gives p t es q u → u.answered ≡ t.answered ++ map (λ e. e.event) es }
{}
