//! The commands' words.
ghost use Rattle.std.specs.Prelude.{◌≡◌};
ghost use Rattle.cmd_words.specs.Words as spec;

/// A command, before its names and options.
#[derive(Clone, Copy)]
pub enum Verb {
    Run,
    Sim,
    Dis,
    Asm,
    Replay,
    Debug,
    Ckpt,
    Resume,
    AbiCheck,
    Vectors,
    Gen,
    Bench,
    Help,
    Version,
}

/// The command of a word.
#[tactic(auto, unfolding(crate::specs::Words::verb_of))]
pub fn verb_of(word: &str) -> Option<Verb>
    ensures { result ≡ spec.verb_of word.now }
{
    if word == "run" {
        Some(Verb::Run)
    } else if word == "sim" {
        Some(Verb::Sim)
    } else if word == "dis" {
        Some(Verb::Dis)
    } else if word == "asm" {
        Some(Verb::Asm)
    } else if word == "replay" {
        Some(Verb::Replay)
    } else if word == "debug" {
        Some(Verb::Debug)
    } else if word == "ckpt" {
        Some(Verb::Ckpt)
    } else if word == "resume" {
        Some(Verb::Resume)
    } else if word == "abi-check" {
        Some(Verb::AbiCheck)
    } else if word == "vectors" {
        Some(Verb::Vectors)
    } else if word == "gen" {
        Some(Verb::Gen)
    } else if word == "bench" {
        Some(Verb::Bench)
    } else if word == "--help" {
        Some(Verb::Help)
    } else if word == "--version" {
        Some(Verb::Version)
    } else {
        None
    }
}
