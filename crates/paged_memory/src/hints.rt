//! Hints where a page is: a guess by the low bits of its number, which is tested where it is taken.
ghost use Rattle.std.specs.Prelude.{◌≡◌, ◌≤◌, length};

use crate::page::Page;
use std::alloc::{AllocError, Global};

/// How many pages have a hint of their own, where they are of one run.
const HINTS: usize = 4096;

/// The hints for some pages.
#[derive(Drop)]
pub struct Hints {
    places: Vec<u16>,
    ghost whole: { length places.items ≡ 4096 },
}

/// Hints at the pages whose lowest permission, to be executed, is this one; of those that share a hint the
/// last has it.
fn hint_at(places: &mut [u16], pages: &[Page], executable: u8)
    requires whole { length places.old ≡ 4096 }
    requires few { length pages.now ≤ 4096 }
    ensures { length places.new ≡ 4096 }
{
    for (place, page) in pages.iter().enumerate() {
        if page.flags & 1 == executable {
            places[(page.number % HINTS as u64) as usize] = place as u16;
        }
    }
}

impl Hints {
    /// The hints for pages; of those that share one the last that can be executed is hinted at, and where
    /// there is none the last: the most pages are looked up to fetch.
    pub fn of(alloc: Global, pages: &[Page]) -> Result<Hints, AllocError>
        requires { length pages.now ≤ 4096 }
    {
        let mut places = vec![in alloc; 0u16; HINTS]?;
        hint_at(places.as_mut_slice(), pages, 0);
        hint_at(places.as_mut_slice(), pages, 1);
        Ok(Hints { places })
    }

    /// The hint for a page of that number.
    #[inline(always)]
    pub fn place(&self, number: u64) -> usize {
        usize::from(self.places[(number % HINTS as u64) as usize])
    }
}
