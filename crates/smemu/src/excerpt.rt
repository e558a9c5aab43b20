//! A part of a text.
ghost use Rattle.std.specs.Prelude.{◌≡◌, ◌≤◌, length};

/// A text, and the part of it from one place to another.
#[derive(Drop)]
pub struct Excerpt {
    pub text: Vec<u8>,
    pub start: usize,
    pub end: usize,
    ghost ordered: { start ≤ end },
    ghost inside: { end ≤ length text.items },
}

impl Excerpt {
    ghost use Rattle.smemu.specs.Excerpt.{excerpt_text};

    /// The part.
    pub fn bytes(&self) -> &[u8]
        ensures { result.now ≡ excerpt_text self.now }
    {
        &self.text.as_slice()[self.start..self.end]
    }
}
