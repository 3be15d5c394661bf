//! What the memories of a board do in a step: planned first, then checked against a device, and then carried out.
#![tactic(auto)]

pub mod deed;
pub mod memory;
pub mod notes;

use deed::Passage;
use device::Device;
use memory::Memory;
use refusal::kinds::{Fault, Refusal};

/// Why the device would refuse a passage that comes after those of other memories.
fn outruns<D: Device>(device: &D, before: &[Memory], passage: Passage) -> Option<Refusal> {
    let (left, refusal) = match passage {
        Passage::Give(port) => (device.waiting(port.value), Refusal::NothingWaits),
        Passage::Take(port) => (device.space(port.value), Refusal::NoSpace),
    };
    let earlier = before
        .iter()
        .filter(|memory| memory.passage() == Some(passage))
        .count();
    if left as usize <= earlier {
        Some(refusal)
    } else {
        None
    }
}

/// Whether the device can serve all memories in turn; otherwise the first that it cannot is refused, at its rank.
pub fn precheck<D: Device>(device: &D, memories: &[Memory]) -> Result<(), Fault> {
    for (at, memory) in memories.iter().enumerate() {
        let refusal = memory
            .passage()
            .and_then(|passage| outruns(device, &memories[..at], passage));
        if let Some(refusal) = refusal {
            return Err(refusal.at(memory.rank));
        }
    }
    Ok(())
}
