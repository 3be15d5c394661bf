//! The storage of the arcs.
ghost use Rattle.std.specs.Prelude.{◌≡◌, ℕ, ◌<◌, ◌≤◌, [], length, slice_index_or};

/// How many nodes there are at most.
pub(crate) const MOST_NODES: usize = 64;

/// Which of `count` nodes needs which: row a says at b whether a needs b. Room for the most nodes, since making one never
/// wants memory.
#[derive(Clone, Copy, Debug, PartialEq, Eq)]
pub struct Links {
    pub(crate) count: usize,
    pub(crate) arcs: [[bool; MOST_NODES]; MOST_NODES],
    ghost few: { count ≤ 64 },
    ghost wide: { (a : ℕ) → a < 64 → length (slice_index_or arcs a []) ≡ 64 },
}
