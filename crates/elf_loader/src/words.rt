//! The code words of a file, looked up in the tables of instructions.
ghost use Rattle.std.specs.Prelude.{◌≡◌, is_some};
ghost use Rattle.a64_encode.specs.Either.{instruction_of};
ghost use Rattle.elf_headers.specs.Fault.{Tells};
ghost use Rattle.elf_loader.specs.Loading.{unlisted, words_fault};

use elf_headers::LoadFault;
use insn_decode::decode;

/// Tells whether the word means an instruction by either table.
fn is_listed(word: u32) -> bool
    ensures { result ≡ is_some (instruction_of word) }
{
    decode(word).is_some()
}

/// Refuses a code word that means no instruction.
#[tactic(auto, unfolding(crate::specs::Loading::unlisted))]
fn check_word(entry: (u64, u32)) -> Result<(), LoadFault>
    ensures { Tells result (unlisted entry) }
{
    let (address, word) = entry;
    if is_listed(word) {
        Ok(())
    } else {
        Err(LoadFault::Unlisted { address, word })
    }
}

/// Refuses the first code word that means no instruction.
pub fn check_words(code: &[(u64, u32)]) -> Result<(), LoadFault>
    ensures { Tells result (words_fault code.now) }
{
    for entry in code {
        check_word(*entry)?;
    }
    Ok(())
}
