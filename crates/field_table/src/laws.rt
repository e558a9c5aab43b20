//! The laws of tables.
ghost use Rattle.std.specs.Prelude.{◌≡◌, ℕ, List, None};
ghost use Rattle.std.specs.List.{concat};
ghost use Rattle.field_table.specs.Table.{Table, IsFilled, Fills, first_bad};

/// What is filled by a table has no bad field, what has none is filled by it, and in one way.
pub fn one_filling()
    ensures reads { (table : Table) (values : List (List ℕ)) (at : ℕ) → IsFilled table values
        → first_bad table (concat values) at ≡ None }
    ensures filled { (table : Table) (bytes : List ℕ) (at : ℕ) → first_bad table bytes at ≡ None
        → Fills table bytes }
    ensures one { (table : Table) (values others : List (List ℕ)) → IsFilled table values
        → IsFilled table others → concat values ≡ concat others → values ≡ others }
{}
