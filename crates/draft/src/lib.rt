//! What a drawing's text gives: the names of its list, and its parts in text order, telling each other by name.
#![tactic(auto)]

ghost use Rattle.std.specs.Prelude.{◌≡◌};
ghost use Rattle.scan.specs.NameBytes.{name_bytes};
ghost use Rattle.draft.specs.Drafts.{Blank};

use names::{Named, Placed};
use std::alloc::Global;

pub mod drafts;
pub mod entry;

use drafts::{Draft, MOST_ITEMS, MOST_WORDS, Reference, Room};

impl Named for Reference {
    ghost label = { λ r. name_bytes r.name };

    fn name(&self) -> &[u8] {
        self.name.as_bytes()
    }
}

impl Placed for Reference {
    ghost stands_at = { λ r. r.place };

    fn place(&self) -> usize {
        self.place
    }
}

impl Draft {
    /// No part is read yet.
    pub fn new(heap: Global) -> Draft
        ensures { Blank result }
    {
        Draft {
            parts: Vec::new(heap),
            kept: Vec::new(heap),
            cases: Vec::new(heap),
            first: Vec::new(heap),
            references: Vec::new(heap),
            items: Room {
                taken: 0,
                most: MOST_ITEMS,
            },
            words: Room {
                taken: 0,
                most: MOST_WORDS,
            },
        }
    }
}
