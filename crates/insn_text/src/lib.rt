//! The text of instructions: `print_insn` writes it, and the tables say it.
//!
//! A shape is one text of an instruction, without optional parts. The text of a word is that of the first
//! shape that is no alias and whose fixed bits the word has.
#![tactic(auto)]

mod item;
mod items;
mod keywords;
mod laws;
mod mnemonics;
mod operand_items;
mod operands;
mod print;
mod printed;
mod shape;
mod shapes;
mod shapes_a_to_l;
mod shapes_m_to_z;
mod texts;
mod vector_operands;
mod vector_texts;

pub use item::{
    Item, ItemList, Kind, RegisterFile, Rule, Setting, Shape, Text, VectorFile, Wording,
};
pub use items::{ITEMS, MATRIX_ITEMS, VECTOR_ITEMS};
pub use keywords::{KEYWORDS, MNEMONICS, SUFFIXES};
pub use laws::{
    every_word_is_printed, names_are_those_of_operations, shapes_are_texts, texts_are_those_of_rows,
};
pub use operand_items::OPERANDS;
pub use print::{print_insn, print_word};
pub use printed::{PRINTED, ROOTS};
pub use shape::operands_of;
pub use shapes::{ORDER, SHAPES, STARTS};
pub use texts::{ACCESSES, BOTH, EXTENDED, ORDERED, PAIRS, SINGLE, SIZED};
pub use vector_texts::{
    BY_REGISTER, COUNTS, EACH_SIZE, LOADS, LOW_PARTS, MOVES, NOT_BYTES, PLAIN, PRODUCTS, SLICES,
    STORES, WHOLE_REGISTERS, WITH_FLAGS, WORDS_AND_DOUBLEWORDS,
};
