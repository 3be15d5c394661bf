//! The macros of a drawing.
ghost use Rattle.macros.specs.Full.{InOrder};
ghost use Rattle.macros.specs.Uses.{entries};

use crate::uses::Macro;

mod makes;

/// The macros of a drawing, each after all those that its text uses.
#[derive(Drop)]
pub struct Macros<'t> {
    pub(crate) table: Vec<Macro<'t>>,
    ghost ordered: { InOrder (entries table.items) },
}
