//! The type of words.
ghost use Rattle.std.specs.Prelude.{◌^◌, ◌<◌};

/// A whole number from 0 to 2,147,483,647.
#[derive(Clone, Copy, Debug, PartialEq, Eq)]
pub struct Word {
    pub value: u32,
    ghost low: { value < 2 ^ 31 },
}
