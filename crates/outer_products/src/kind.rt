//! The kinds of outer products, and the sizes of their elements.

/// The signs of the two sources, whether the products are subtracted, and whether the sources are halfwords
/// and the sums doublewords. Source: DDI 0487, C9.2, SMOPA, SUMOPA, USMOPA, UMOPA and the subtracting forms.
#[derive(Clone, Copy, Debug, PartialEq, Eq)]
pub struct MopaKind {
    pub n_signed: bool,
    pub m_signed: bool,
    pub subtract: bool,
    pub halves: bool,
}
