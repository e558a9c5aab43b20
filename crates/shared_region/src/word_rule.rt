//! One operation on the shared words.
ghost use Rattle.std.specs.Prelude.{◌≡◌, ◌<◌, length, slice_index, slice_set, cond};
ghost use Rattle.shared_region.specs.WordRule.{new_word, answer_of, is_on_signals, HasWord, word_at};
ghost use Rattle.shared_region.specs.WordRule.{with_word, applied, answer_to};

use sm_types::{OpKind, SharedOp, Words};

/// The word after an operation, from the old one.
#[inline]
fn new_word(op: &SharedOp, old: u64) -> u64
    ensures { result ≡ new_word op.now.kind op.now.a op.now.b old }
{
    match op.kind {
        OpKind::Load => old,
        OpKind::Store | OpKind::Swap => op.a,
        OpKind::Add => old.wrapping_add(op.a),
        OpKind::Clear => old & (u64::MAX - op.a),
        OpKind::Eor => old ^ op.a,
        OpKind::Set | OpKind::Post => old | op.a,
        OpKind::Umax => old.max(op.a),
        OpKind::Umin => old.min(op.a),
        OpKind::Cas if old == op.a => op.b,
        OpKind::Cas => old,
        OpKind::Poll => 0,
    }
}

/// What an operation answers, from the old word.
#[inline]
fn answer_of(kind: OpKind, old: u64) -> u64
    ensures { result ≡ answer_of kind old }
{
    match kind {
        OpKind::Store => 0,
        _ => old,
    }
}

/// Tells whether an operation is made on a thread's pending signals.
#[inline]
fn is_on_signals(kind: OpKind) -> bool
    ensures { result ≡ is_on_signals kind }
{
    match kind {
        OpKind::Post | OpKind::Poll => true,
        _ => false,
    }
}

/// The word on which an operation is made.
#[inline]
#[tactic(auto, unfolding(crate::specs::WordRule::word_at))]
fn word_at(words: &Words, op: &SharedOp) -> u64
    requires { HasWord op.now }
    ensures { result ≡ word_at words.now op.now }
{
    let place = op.place as usize;
    if is_on_signals(op.kind) {
        words.pending[place]
    } else {
        words.shared[place]
    }
}

/// Writes the word on which an operation is made.
#[inline]
#[tactic(auto, unfolding(crate::specs::WordRule::with_word))]
fn write_word(words: &mut Words, op: &SharedOp, value: u64)
    requires { HasWord op.now }
    ensures { words.new ≡ with_word words.old op.now value }
{
    let place = op.place as usize;
    if is_on_signals(op.kind) {
        words.pending[place] = value;
    } else {
        words.shared[place] = value;
    }
}

/// Makes an operation on the words, and gives its answer.
#[inline]
#[tactic(auto, unfolding(crate::specs::WordRule::applied, crate::specs::WordRule::answer_to))]
pub fn apply(words: &mut Words, op: &SharedOp) -> u64
    requires { HasWord op.now }
    ensures words { words.new ≡ applied words.old op.now }
    ensures answer { result ≡ answer_to words.old op.now }
{
    let old = word_at(words, op);
    write_word(words, op, new_word(op, old));
    answer_of(op.kind, old)
}
