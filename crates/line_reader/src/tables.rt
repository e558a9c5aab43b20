//! Words in a table.
ghost use Rattle.std.specs.Prelude.{◌≡◌};
ghost use Rattle.line_reader.specs.Tables.{found};

use crate::fields::is_word;

/// The value of the first row whose text is that word.
#[tactic(auto, unfolding(crate::specs::Tables::found))]
pub fn found_in<T: Copy>(rows: &[(&[u8], T)], word: &[u8]) -> Option<T>
    ensures { result ≡ found (λ row. row.0.now) (λ row. row.1) rows.now word.now }
{
    for row in rows {
        if is_word(word, row.0) {
            return Some(row.1);
        }
    }
    None
}
