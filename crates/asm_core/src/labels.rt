//! The labels of a source, by name.
ghost use Rattle.std.specs.Prelude.{◌≡◌, ℕ, List, Option, Some, None, cond, OnOk};
ghost use Rattle.std.specs.Str.{bytes_eq};
ghost use Rattle.asm_core.specs.Known.{known};

use sm_types::Section;
use std::alloc::{AllocError, Global};
use std::collections::HashMap;

/// Where a label stands: at an offset in a part.
#[derive(Clone, Copy)]
pub struct LabelPosition {
    pub part: Section,
    pub offset: u64,
}

/// The labels so far.
#[derive(Drop)]
pub struct Labels<'a> {
    pub positions: HashMap<&'a [u8], LabelPosition>,
}

impl<'a> Labels<'a> {
    /// No labels.
    pub fn new(alloc: Global) -> Labels<'a>
        ensures { (name : List ℕ) → known result name ≡ None }
    {
        Labels {
            positions: HashMap::new(alloc),
        }
    }

    /// The label of that name.
    pub fn find(&self, name: &[u8]) -> Option<LabelPosition>
        ensures { result ≡ known self.now name.now }
    {
        self.positions.get(name).copied()
    }

    /// Adds a label; one of the same name that stands before is forgotten.
    pub fn add(&mut self, name: &'a [u8], position: LabelPosition) -> Result<(), AllocError>
        ensures { OnOk result ((other : List ℕ)
            → known self.new other ≡ cond (bytes_eq name.now other) (Some position) (known self.old other)) }
    {
        match self.positions.insert(name, position) {
            Ok(_) => Ok(()),
            Err(_) => Err(AllocError),
        }
    }
}
