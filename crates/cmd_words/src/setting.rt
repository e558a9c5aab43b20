//! The options of a run, by their words.
ghost use Rattle.std.specs.Prelude.{◌≡◌};
ghost use Rattle.cmd_words.specs.Options as spec;

use sm_types::{Config, are_cores, are_threads, is_budget, is_length, is_slice};

/// An option of a run.
#[derive(Clone, Copy)]
pub enum Setting {
    /// The vector length outside streaming mode.
    Vl,
    /// The vector length in streaming mode.
    Svl,
    /// The instructions between two polls of the pending signals.
    Slice,
    /// The instructions after which a thread is stopped.
    Budget,
    /// The guest threads.
    Threads,
    /// The cores.
    Cores,
}

/// The word of an option.
fn word_of(setting: Setting) -> &'static str
    ensures { result.now ≡ spec.word_of setting }
{
    match setting {
        Setting::Vl => "--vl",
        Setting::Svl => "--svl",
        Setting::Slice => "--slice",
        Setting::Budget => "--budget",
        Setting::Threads => "--threads",
        Setting::Cores => "--cores",
    }
}

/// The option of a word, among some.
pub fn setting_in(settings: &[Setting], word: &str) -> Option<Setting>
    ensures { result ≡ spec.setting_in settings.now word.now }
{
    for setting in settings {
        if word == word_of(*setting) {
            return Some(*setting);
        }
    }
    None
}

/// Tells whether an option takes the number.
pub fn takes(setting: Setting, number: u64) -> bool
    ensures { result ≡ spec.takes setting number }
{
    match setting {
        Setting::Vl => is_length(number),
        Setting::Svl => is_length(number),
        Setting::Slice => is_slice(number),
        Setting::Budget => is_budget(number),
        Setting::Threads => are_threads(number),
        Setting::Cores => are_cores(number),
    }
}

/// The number of an option that is not given.
pub fn default_of(setting: Setting) -> u32
    ensures { result ≡ spec.default_of setting }
{
    let defaults = Config::defaults();
    match setting {
        Setting::Vl => defaults.vl.bits(),
        Setting::Svl => defaults.svl.bits(),
        Setting::Slice => defaults.slice,
        Setting::Budget => defaults.budget,
        Setting::Threads => defaults.threads,
        Setting::Cores => defaults.cores,
    }
}
