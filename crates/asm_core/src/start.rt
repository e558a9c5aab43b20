//! Where a program starts.
ghost use Rattle.std.specs.Prelude.{◌≡◌, ◌≤◌};
ghost use Rattle.asm_core.specs.Faults.{start_in, start_of};
ghost use Rattle.asm_core.specs.Known.{known};

use crate::labels::{LabelPosition, Labels};
use sm_types::{Section, TEXT_ADDRESS};

/// The address of a label in a text of so many bytes, where a program can start there.
fn start_in(text_size: u64, label: LabelPosition) -> Option<u64>
    requires { text_size ≤ 4194304 }
    ensures { result ≡ start_in text_size label.part label.offset }
{
    match label.part {
        Section::Text => {
            if label.offset % 4 == 0 && label.offset < text_size {
                Some(TEXT_ADDRESS + label.offset)
            } else {
                None
            }
        }
        Section::Data => None,
    }
}

/// The address of the label `_start`, where a program can start there.
#[tactic(auto, unfolding(crate::specs::Faults::start_of))]
pub fn start_of(text_size: u64, labels: &Labels<'_>) -> Option<u64>
    requires { text_size ≤ 4194304 }
    ensures { result ≡ start_of text_size (known labels.now) }
{
    start_in(text_size, labels.find(b"_start")?)
}
