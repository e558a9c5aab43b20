//! What the options that have been read give.
ghost use Rattle.std.specs.Prelude.{◌≡◌, ◌≢◌, true, Option, None, Some, is_some};
ghost use Rattle.std.specs.Option.{ForSome};
ghost use Rattle.sm_types.specs.Options.{numbers_of};
ghost use Rattle.cmd_words.specs.Options.{takes};
ghost use Rattle.cmd_words.specs.Given.{given_of, number_for, numbers_given};
ghost use Rattle.cmd_words.specs.declared.setting.Setting.{Setting};

use crate::setting::{Setting, default_of};
use sm_types::{Config, Numbers};

/// The numbers of the options that have been read.
#[derive(Clone, Copy)]
pub struct Given {
    pub vl: Option<u32>,
    pub svl: Option<u32>,
    pub slice: Option<u32>,
    pub budget: Option<u32>,
    pub threads: Option<u32>,
    pub cores: Option<u32>,
}

impl Given {
    /// No option.
    pub fn none() -> Given
        ensures { (setting : Setting) → given_of result setting ≡ None }
    {
        Given {
            vl: None,
            svl: None,
            slice: None,
            budget: None,
            threads: None,
            cores: None,
        }
    }

    /// The number of an option, where it is given.
    pub fn get(&self, setting: Setting) -> Option<u32>
        ensures { result ≡ given_of self.now setting }
    {
        match setting {
            Setting::Vl => self.vl,
            Setting::Svl => self.svl,
            Setting::Slice => self.slice,
            Setting::Budget => self.budget,
            Setting::Threads => self.threads,
            Setting::Cores => self.cores,
        }
    }

    /// With the number of one more option.
    pub fn with(&self, setting: Setting, number: u32) -> Given
        ensures set { given_of result setting ≡ Some number }
        ensures others { (other : Setting) → other ≢ setting → given_of result other
            ≡ given_of self.now other }
    {
        let mut given = *self;
        match setting {
            Setting::Vl => given.vl = Some(number),
            Setting::Svl => given.svl = Some(number),
            Setting::Slice => given.slice = Some(number),
            Setting::Budget => given.budget = Some(number),
            Setting::Threads => given.threads = Some(number),
            Setting::Cores => given.cores = Some(number),
        }
        given
    }

    /// The number of an option, given or not.
    pub fn number(&self, setting: Setting) -> u32
        ensures { result ≡ number_for self.now setting }
    {
        self.get(setting).unwrap_or(default_of(setting))
    }

    /// The numbers of all options, given or not; no word gives the kernel, which is the
    /// second.
    fn numbers(&self) -> Numbers
        ensures { result ≡ numbers_given self.now }
    {
        Numbers {
            vl: u64::from(self.number(Setting::Vl)),
            svl: u64::from(self.number(Setting::Svl)),
            slice: u64::from(self.number(Setting::Slice)),
            budget: u64::from(self.number(Setting::Budget)),
            threads: u64::from(self.number(Setting::Threads)),
            cores: u64::from(self.number(Setting::Cores)),
            kernel: 2,
        }
    }

    /// The options of the run.
    pub fn config(&self) -> Config
        requires { (setting : Setting) → ForSome (given_of self.now setting)
            (λ number. takes setting number ≡ true) }
        ensures { numbers_of result ≡ numbers_given self.now }
    {
        match Config::of(&self.numbers()) {
            Some(config) => config,
            None => unreachable!(),
        }
    }
}
