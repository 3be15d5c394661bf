//! The panel: a device of eight ports, at which words come to wait by pressing.
#![tactic(auto)]

ghost use Rattle.std.specs.Prelude.{◌≡◌};
ghost use Rattle.arrayvec.specs.ArrayVec.{array_vec_len};

mod port;
pub mod pressing;
pub mod serving;

use arrayvec::ArrayVec;
use port::PanelPort;

/// The ports 0 to 7. Each holds at most eight words that wait, and has space for eight at the start.
#[derive(Debug, PartialEq, Eq, Drop)]
pub struct Panel {
    ports: ArrayVec<PanelPort, 8>,
    ghost wide: { array_vec_len ports ≡ 8 },
}
