//! A new sheet, and what it has taken.
ghost use Rattle.std.specs.Prelude.{◌≡◌, ◌<◌};
ghost use Rattle.scan.specs.Words.{words_after};
ghost use Rattle.device.specs.Kept.{kept};
ghost use Rattle.sheet.specs.Slots.{slot_meaning, fresh};
ghost use Rattle.sheet.specs.Meant.{sheet_meaning, fresh_sheet, read};
ghost use Rattle.sheet.specs.Stands.{SheetStands};

use crate::Sheet;
use crate::short::ShortText;
use crate::slot::Slot;
use arrayvec::ArrayVec;
use device::taken::Taken;
use std::array;

impl<'t> Sheet<'t> {
    /// The sheet of a text that is short enough.
    fn over(text: ShortText<'t>, from: usize) -> Sheet<'t>
        ensures { sheet_meaning result ≡ fresh_sheet (words_after text.entry.bytes.now from) }
    {
        let open = |port: usize|
            requires { port < 16 }
            ensures { slot_meaning result ≡ fresh (words_after text.entry.bytes.now from) port }
        { Slot::new(text, from, port as u32) };
        Sheet {
            slots: ArrayVec::from(array::from_fn(open)),
        }
    }

    /// The sheet whose pairs of port and word stand in `text` from the place `from` on. A text of 4 GiB or more, which
    /// no judgement lets pass, counts as empty.
    pub fn new(text: &'t [u8], from: usize) -> Sheet<'t>
        ensures { sheet_meaning result ≡ fresh_sheet (read text.now from) }
    {
        match ShortText::new(text) {
            Some(short) => Sheet::over(short, from),
            None => Sheet::over(ShortText::empty(), 0),
        }
    }

    /// The words that `port` has taken, the last of them last.
    pub fn taken(&self, port: u32) -> Taken<16>
        ensures { kept 16 result ≡ (sheet_meaning self.now port).taken }
    {
        self.slots
            .as_slice()
            .get(port as usize)
            .map_or_else(Taken::new, Slot::taken)
    }
}

/// What the verdict on a run sheet comes to, and where its words wait.
pub fn sheet_stands()
    ensures { SheetStands }
{}
