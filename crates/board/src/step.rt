//! One cycle of the board.
ghost use Rattle.std.specs.Prelude.{◌≡◌, ◌+◌, ◌<◌, OnOk, OnErr};

use crate::boards::Board;
use crate::plan::{check_selectors, plan_all};
use device::Device;
use ports::memory::Memory;
use ports::precheck;
use refusal::kinds::{Fault, Refusal};
use word::value::Word;

/// The cycle from which no step goes on.
const LAST_CYCLE: u32 = 9_999_999;

/// Carries out what the memories have planned, by ascending rank; `shown` has the words that they hold.
fn carry_out<D: Device>(memories: &mut [Memory], shown: &mut [Word], device: &mut D) {
    for memory in memories.iter_mut() {
        let rank = memory.rank;
        if rank < shown.len() {
            shown[rank] = memory.carry_out(device, shown[rank]);
        }
    }
}

impl Board {
    /// Plans a step, and checks that it can be done: 40, 41, 42, then 43 and 44 at once, each at the least rank.
    fn ready<D: Device>(&mut self, device: &D) -> Result<(), Fault>
        ensures cycle { self.new.cycle ≡ self.old.cycle }
        ensures low { OnOk result (self.old.cycle < LAST_CYCLE) }
    {
        if self.cycle >= LAST_CYCLE {
            return Err(Refusal::LastCycle.at(0));
        }
        let parts = self.circuit.parts.as_slice();
        let shown = self.shown.as_slice();
        check_selectors(parts, shown)?;
        plan_all(parts, shown, self.memories.as_mut_slice())?;
        precheck(device, self.memories.as_slice())
    }

    /// One cycle: all memories act on the values shown before it, and the values are worked out anew. A step that is
    /// refused leaves board and device as they were.
    pub fn step<D: Device>(&mut self, device: &mut D) -> Result<(), Fault>
        ensures done { OnOk result (self.new.cycle ≡ self.old.cycle + 1) }
        ensures refused { OnErr result (self.new.cycle ≡ self.old.cycle) }
    {
        self.ready(device)?;
        carry_out(
            self.memories.as_mut_slice(),
            self.shown.as_mut_slice(),
            device,
        );
        self.circuit.settle(self.shown.as_mut_slice());
        self.cycle += 1;
        Ok(())
    }

    /// The cycle number: how many steps were done since the board was new.
    pub fn cycle(&self) -> u32
        ensures { result ≡ self.now.cycle }
    {
        self.cycle
    }
}
