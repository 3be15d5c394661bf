//! One port of the sheet.
ghost use Rattle.std.specs.Prelude.{◌≡◌, length};
ghost use Rattle.sheet.specs.Waits.{waits};

use crate::pairs::Waiting;
use device::taken::Taken;

pub(crate) mod serves;

/// The words that wait, how many they are, and the words taken.
#[derive(Debug, Drop)]
pub(crate) struct Slot<'t> {
    words: Waiting<'t>,
    // Kept beside the words, since counting them reads the whole text, and a board asks at each step.
    waiting: u32,
    taken: Taken<16>,
    ghost right: { waiting ≡ length (waits words) },
}
