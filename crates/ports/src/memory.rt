//! A memory of a board.
ghost use Rattle.std.specs.Prelude.{◌≡◌, IfOk, vec_len};
ghost use Rattle.ports.specs.Deeds.{deed_of, held_after, passed, place_of, stored};
ghost use Rattle.ports.specs.Memories.{CarriesOut, IsFresh, PlansOrRefuses};

use crate::deed::{Deed, Passage};
use crate::notes::{Access, Note};
use device::Device;
use refusal::kinds::{Fault, Refusal};
use std::alloc::{AllocError, Global};
use word::value::Word;

/// What a memory is about to do in a step, and what is to be noted of it.
#[derive(Clone, Copy, Debug, PartialEq, Eq)]
struct Plan {
    deed: Deed,
    access: Option<Access>,
    address: Word,
}

/// A memory of a board: its rank and its words, what it is about to do, and what was noted of it in the last accepted
/// step. The word that it holds is among the words that the board's parts show.
#[derive(Drop)]
pub struct Memory {
    pub rank: usize,
    pub words: Vec<Word>,
    plan: Option<Plan>,
    pub note: Option<Note>,
}

impl Memory {
    /// The memory of a rank with its first words, of which nothing is noted.
    pub fn new(heap: Global, rank: usize, first: &[Word]) -> Result<Memory, AllocError>
        ensures { IfOk result (IsFresh rank first.now) }
    {
        Ok(Memory {
            rank,
            words: Vec::from_slice(heap, first)?,
            plan: None,
            note: None,
        })
    }

    /// The place of an address among the words, if the memory has it.
    fn place_of(&self, address: Word) -> Option<usize>
        ensures { result ≡ place_of address (vec_len self.now.words) }
    {
        let place = address.value as usize;
        if place < self.words.len() {
            Some(place)
        } else {
            None
        }
    }

    /// What the two low bits of an operation say; nothing if that is at a place that the memory does not have.
    fn deed_of(&self, operation: Word, address: Word, data: Word) -> Option<Deed>
        ensures { result ≡ deed_of operation address «data» (vec_len self.now.words) }
    {
        match operation.value & 3 {
            0 => self.place_of(address).map(Deed::Read),
            1 => self.place_of(address).map(|place| Deed::Write(place, data)),
            2 => Some(Deed::Give(address)),
            _ => Some(Deed::Take(address, data)),
        }
    }

    /// Plans a step by the values of the memory's expressions. It is refused where the address is past the last word.
    pub fn plan(&mut self, address: Word, data: Word, operation: Word) -> Result<(), Fault>
        ensures { PlansOrRefuses operation address «data» self.old self.new result }
    {
        let Some(deed) = self.deed_of(operation, address, data) else {
            return Err(Refusal::AddressPast.at(self.rank));
        };
        self.plan = Some(Plan {
            deed,
            access: Access::of_operation(operation),
            address,
        });
        Ok(())
    }

    /// The passage over a port that is planned, if one is.
    pub(crate) fn passage(&self) -> Option<Passage> {
        self.plan.and_then(|plan| plan.deed.passage())
    }

    /// Does what is planned over a device, and answers the word that is held then. A passage that is refused leaves the
    /// word that was held.
    fn act<D: Device>(&mut self, deed: Deed, device: &mut D, held: Word) -> Word
        ensures rank { self.new.rank ≡ self.old.rank }
        ensures words { self.new.words.items ≡ stored deed self.old.words.items }
        ensures device { D.meaning device.new ≡ passed deed (D.meaning device.old) }
        ensures word { result.value ≡ held_after deed self.old.words.items (D.meaning device.old) held }
    {
        match deed {
            Deed::Read(place) => self.words.get(place).copied().unwrap_or(held),
            Deed::Write(place, word) => {
                if place < self.words.len() {
                    self.words[place] = word;
                }
                word
            }
            Deed::Give(port) => device.give(port.value).unwrap_or(held),
            Deed::Take(port, word) => match device.take(port.value, word) {
                Ok(()) => word,
                Err(_) => held,
            },
        }
    }

    /// Carries out what is planned, notes it, and answers the word that the memory holds then. `held` is what it holds
    /// before.
    pub fn carry_out<D: Device>(&mut self, device: &mut D, held: Word) -> Word
        ensures { CarriesOut self.old self.new (D.meaning device.old) (D.meaning device.new) held result }
    {
        let Some(plan) = self.plan else {
            return held;
        };
        let held = self.act(plan.deed, device, held);
        self.note = plan.access.map(|access| Note {
            access,
            address: plan.address,
            held,
        });
        held
    }
}
