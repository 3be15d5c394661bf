//! Graphs of at most 64 nodes whose arcs are set one by one.
#![tactic(auto)]

ghost use Rattle.std.specs.Prelude.{◌≡◌, true, false, ℕ, min, ◌<◌};
ghost use Rattle.links.specs.Linked.{nodes, linked, Added};

pub mod arcs;

use arcs::{Links, MOST_NODES};
use graph::Graph;

impl Links {
    /// So many nodes, 64 at most, of which none needs another.
    pub fn new(count: usize) -> Links
        ensures nodes { nodes result ≡ min count 64 }
        ensures arcs { (a b : ℕ) → linked result a b ≡ false }
    {
        Links {
            count: count.min(MOST_NODES),
            arcs: [[false; MOST_NODES]; MOST_NODES],
        }
    }

    /// Lets node `a` need node `b`, if both are there.
    #[tactic(auto, using(crate::proofs::Cells::cell_set))]
    pub fn add(&mut self, a: usize, b: usize)
        ensures nodes { nodes self.new ≡ nodes self.old }
        ensures arcs { Added self.old a b self.new }
    {
        if a < self.count && b < self.count {
            self.arcs[a][b] = true;
        }
    }
}

impl Graph for Links {
    ghost size = { nodes };

    ghost wants = { linked };

    fn nodes(&self) -> usize {
        self.count
    }

    fn needs(&self, a: usize, b: usize) -> bool {
        self.arcs[a][b]
    }
}
