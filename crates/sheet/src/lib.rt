//! The run sheet: how many cycles to run, and a device at whose ports the sheet's words wait.
#![tactic(auto)]

ghost use Rattle.std.specs.Prelude.{◌≡◌};
ghost use Rattle.arrayvec.specs.ArrayVec.{array_vec_len};

pub mod judging;
pub mod opening;
mod pairs;
pub mod serving;
mod short;
mod slot;

use arrayvec::ArrayVec;
use slot::Slot;

/// The ports 0 to 15. The words that wait there are read out of the run sheet's text when they are given, and each
/// port has space for sixteen words at the start.
#[derive(Debug, Drop)]
pub struct Sheet<'t> {
    slots: ArrayVec<Slot<'t>, 16>,
    ghost wide: { array_vec_len slots ≡ 16 },
}
