//! The type of ranges of bits.
ghost use Rattle.std.specs.Prelude.{◌≤◌};

/// A range of the bits of a word, from its lowest bit through its highest. Bit 0 is the lowest of a word, and bit 30 the highest.
#[derive(Clone, Copy, Debug, PartialEq, Eq)]
pub struct Range {
    pub first: u32,
    pub last: u32,
    ghost ordered: { first ≤ last },
    ghost inside: { last ≤ 30 },
}
