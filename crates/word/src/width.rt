//! The type of widths.
ghost use Rattle.std.specs.Prelude.{◌<◌, ◌≤◌};

/// How many bits an item of an expression has: from 1 to 31.
#[derive(Clone, Copy, Debug, PartialEq, Eq)]
pub struct Width {
    pub bits: u32,
    ghost some: { 0 < bits },
    ghost most: { bits ≤ 31 },
}
