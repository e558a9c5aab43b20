//! Laws of elements.
ghost use Rattle.vector_elements.specs.Laws.{GivesElements, KeepsInactive};

/// Bytes that are changed element by element have the elements that the change gave, modulo 256 ^ e.
pub fn change_gives_elements()
    ensures { GivesElements }
{}

/// Bytes whose active elements are changed have the other elements that they had.
pub fn change_keeps_inactive()
    ensures { KeepsInactive }
{}
