//! The names of a drawing's list.
ghost use Rattle.scan.specs.NameBytes.{name_bytes};

use names::{Named, Placed};
use scan::names::Name;

/// A listed name, the place of its word, and whether a star marks it as traced.
#[derive(Clone, Copy, Debug, PartialEq, Eq)]
pub struct Entry {
    pub name: Name,
    pub place: usize,
    pub traced: bool,
}

impl Named for Entry {
    ghost label = { λ e. name_bytes e.name };

    fn name(&self) -> &[u8] {
        self.name.as_bytes()
    }
}

impl Placed for Entry {
    ghost stands_at = { λ e. e.place };

    fn place(&self) -> usize {
        self.place
    }
}
