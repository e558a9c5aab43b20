//! The laws of the texts.
ghost use Rattle.std.specs.Prelude.{◌≡◌, ◌+◌, ℕ, true, Some, length};
ghost use Rattle.std.specs.List.{list_all};
ghost use Rattle.sm_types.specs.declared.insn.Insn.{Insn};
ghost use Rattle.a64_encode.specs.Either.{MeansEither};
ghost use Rattle.insn_forms.specs.Tables.{Means, numbers_in};
ghost use Rattle.a64_table.specs.Table.{scalar};
ghost use Rattle.sve_table.specs.Table.{vector};
ghost use Rattle.a64_table.specs.declared.rows.TheConstants.{SCALAR_LINES};
ghost use Rattle.insn_text.specs.declared.item.Shape.{Shape};
ghost use Rattle.insn_text.specs.declared.shapes.TheConstants.{ORDER, SHAPES};
ghost use Rattle.insn_text.specs.declared.keywords.TheConstants.{MNEMONICS};
ghost use Rattle.insn_text.specs.Cited.{is_cited, none_is_hidden};
ghost use Rattle.insn_text.specs.Complete.{has_aliases, has_own};
ghost use Rattle.insn_text.specs.Templates.{has_templates};
ghost use Rattle.sve_table.specs.declared.rows.TheConstants.{VECTOR_LINES};
ghost use Rattle.insn_text.specs.Mnemonics.{mnemonic_of};
ghost use Rattle.insn_text.specs.VectorMnemonics.{vector_mnemonic_of};
ghost use Rattle.insn_text.specs.Rules.{IsPrinted, have_room};
ghost use Rattle.insn_text.specs.Texts.{printed_shape, text_at};
ghost use Rattle.insn_text.specs.Wordings.{are_shapes, have_shapes, stand_in_order, texts, vector_texts};

/// Each word that means an instruction has a text.
pub fn every_word_is_printed()
    ensures { (word : ℕ) (it : Insn) → MeansEither word it → IsPrinted word }
{}

/// The shapes are the texts of the table, each once, in the order of their mnemonics: a shape has its text's
/// mnemonic and operands, and fixes the bits of the row and those that the text sets; each field of the row
/// is set or said, and no other.
pub fn shapes_are_texts()
    ensures each { are_shapes texts vector_texts ORDER SHAPES ≡ true }
    ensures order { stand_in_order SHAPES ORDER ≡ true }
    ensures all { have_shapes (length texts + length vector_texts) ORDER ≡ true }
{}

/// Each shape is a text of a row of the table: it has the row's fixed bits, its mnemonic is that of the row's
/// operation, or an alias of it, and its operands say the row's fields in their order. An operand's words and
/// numbers are those of its field, and one alone where it has none. Each text of a row and each of its
/// aliases has a shape in each of its forms: of each width, with and without what may be left out.
pub fn texts_are_those_of_rows()
    ensures cited { list_all is_cited SHAPES ≡ true }
    ensures room { list_all have_room SHAPES ≡ true }
    ensures order { none_is_hidden SHAPES ≡ true }
    ensures aliases { list_all has_aliases SCALAR_LINES ≡ true }
    ensures own { list_all has_own SCALAR_LINES ≡ true }
    ensures vectors { list_all has_templates VECTOR_LINES ≡ true }
{}

/// The mnemonic in which a word is printed is that of its instruction's operation.
pub fn names_are_those_of_operations()
    ensures scalars { (word : ℕ) (it : Insn) (means : Means scalar word it) (shape : Shape)
        → printed_shape word ≡ Some shape
        → text_at MNEMONICS shape.mnemonic ≡ mnemonic_of means.line.operation (numbers_in word) }
    ensures vectors { (word : ℕ) (it : Insn) (means : Means vector word it) (shape : Shape)
        → printed_shape word ≡ Some shape
        → text_at MNEMONICS shape.mnemonic ≡ vector_mnemonic_of means.line.operation (numbers_in word) }
{}
