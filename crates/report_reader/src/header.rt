//! The lines of a report before its blocks.
ghost use Rattle.std.specs.Prelude.{◌≡◌, IfSome, option_map};
ghost use Rattle.sm_types.specs.Options.{if_taken, numbers_of};
ghost use Rattle.report_reader.specs.Header as spec;
ghost use Rattle.line_reader.specs.Fields.{field, Says};
ghost use Rattle.line_reader.specs.Told.{words_ahead};

use line_reader::{Fields, decimal_number, is_hex, is_word};
use sm_types::{Config, Numbers, Version};

/// The version of the format that the first line says.
#[tactic(auto, unfolding(crate::specs::Header::version_line))]
pub fn version_line(line: &[u8]) -> Option<Version>
    ensures { result ≡ spec.version_line line.now }
{
    if is_word(line, b"smemu-report 1\n") {
        Some(Version::One)
    } else if is_word(line, b"smemu-report 2\n") {
        Some(Version::Two)
    } else {
        None
    }
}

/// The number of a version's kernel.
fn kernel_of(version: Version) -> u64
    ensures { result ≡ spec.kernel_of version }
{
    match version {
        Version::One => 1,
        Version::Two => 2,
    }
}

/// The options of those numbers, on one core and with the kernel of a version; `None` exactly where one of
/// them is none that its option takes.
#[tactic(auto, using(crate::proofs::Options::one_core))]
fn config_of(
    version: Version,
    vl: u64,
    svl: u64,
    slice: u64,
    budget: u64,
    threads: u64,
) -> Option<Config>
    ensures options { option_map numbers_of result
        ≡ if_taken (spec.five_numbers version vl svl slice budget threads) }
    ensures cores { IfSome result (λ config. config.cores ≡ 1) }
{
    Config::of(&Numbers {
        vl,
        svl,
        slice,
        budget,
        threads,
        cores: 1,
        kernel: kernel_of(version),
    })
}

/// The number after a key.
#[tactic(auto, unfolding(crate::specs::Header::number_after))]
fn number_after(key: &[u8], word: &[u8]) -> Option<u64>
    ensures { result ≡ spec.number_after key.now word.now }
{
    let word = word.strip_prefix(key)?;
    decimal_number(word)
}

/// Reads the next word, which is a number after a key.
fn read_option(key: &[u8], words: &mut Fields) -> Option<u64>
    ensures { Says (field (spec.number_after key.now) (words_ahead words.old)) result
        (words_ahead words.new) }
{
    let word = words.next()?;
    number_after(key, word)
}

/// The options that a line says in a version; it has no word for cores.
#[tactic(auto, unfolding(crate::specs::Header::options_line, line_reader::specs::Fields::said_by))]
pub fn options_line(version: Version, line: &[u8]) -> Option<Config>
    ensures options { option_map numbers_of result ≡ spec.options_line version line.now }
    ensures cores { IfSome result (λ config. config.cores ≡ 1) }
{
    let mut words = Fields::of(line);
    words.named(b"options")?;
    let vl = read_option(b"vl=", &mut words)?;
    let svl = read_option(b"svl=", &mut words)?;
    let slice = read_option(b"slice=", &mut words)?;
    let budget = read_option(b"budget=", &mut words)?;
    let threads = read_option(b"threads=", &mut words)?;
    words.end(())?;
    config_of(version, vl, svl, slice, budget, threads)
}

/// The 32 bytes that a word writes.
#[tactic(auto, unfolding(crate::specs::Header::digest_of))]
fn digest_of(word: &[u8]) -> Option<[u8; 32]>
    ensures { result ≡ spec.digest_of word.now }
{
    if !is_hex(word) {
        return None;
    }
    let mut digest = [0u8; 32];
    match hex::decode_to_slice(word, &mut digest) {
        Ok(()) => Some(digest),
        Err(_) => None,
    }
}

/// Reads the next word, which is a digest.
fn read_digest(words: &mut Fields) -> Option<[u8; 32]>
    ensures { Says (field spec.digest_of (words_ahead words.old)) result (words_ahead words.new) }
{
    let word = words.next()?;
    digest_of(word)
}

/// The digest that a line says.
#[tactic(auto, unfolding(crate::specs::Header::image_line, line_reader::specs::Fields::said_by))]
pub fn image_line(line: &[u8]) -> Option<[u8; 32]>
    ensures { result ≡ spec.image_line line.now }
{
    let mut words = Fields::of(line);
    words.named(b"image")?;
    let digest = read_digest(&mut words)?;
    words.end(digest)
}
