//! Laws of the outer products.
ghost use Rattle.outer_products.specs.Laws.{ProductsAtPlaces, ProductsKeepTiles};

/// Element (r, c) of the tile changes by the sum of the products of elements 4r + k of Zn and 4c + k of Zm,
/// for k from 0 to 3, where both are active, modulo 2 ^ w, w being the bits of an element of the tile.
/// Source: DDI 0487, C9.2, SMOPA, SUMOPA, USMOPA, UMOPA (4-way) and the subtracting forms.
pub fn products_are_at_their_places()
    ensures { ProductsAtPlaces }
{}

/// An outer product leaves the vectors of the other tiles of such elements as they were.
/// Source: DDI 0487, B1.4 (ZA tiles).
pub fn products_keep_tiles()
    ensures { ProductsKeepTiles }
{}
