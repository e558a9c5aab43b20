//! The laws of loading: a file has a fault, or it is loaded as one program.
ghost use Rattle.std.specs.Prelude.{◌≡◌, ℕ, List, None};
ghost use Rattle.paged_memory.specs.Image.{Program};
ghost use Rattle.elf_loader.specs.Loading.{load_fault, Loads};

/// A file without a fault is loaded as some program.
pub fn some_image()
    ensures { (file : List ℕ) → load_fault file ≡ None → (program : Program) × Loads file program }
{}

/// A file is loaded as at most one program.
pub fn one_image()
    ensures { (file : List ℕ) (p q : Program) → Loads file p → Loads file q → p ≡ q }
{}
