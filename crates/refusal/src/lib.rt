//! Why a drawing, a run sheet, a call or a port is refused, and where.
#![tactic(auto)]

ghost use Rattle.std.specs.Prelude.{◌≡◌};
ghost use Rattle.refusal.specs.Numbers.{number};
ghost use Rattle.refusal.specs.declared.kinds.Failure.TheVariants.{Refused, NoMemory};

pub mod kinds;

use kinds::{Failure, Fault, Refusal};
use std::alloc::{AllocError, AllocFailed};

impl Refusal {
    /// The number by which a user knows the refusal.
    // One of the refusals carries a length, so none can be cast to its number.
    pub fn number(self) -> u32
        ensures { result ≡ number self }
    {
        match self {
            Refusal::TextTooLong => 10,
            Refusal::Malformed => 11,
            Refusal::TextEnds => 12,
            Refusal::NumberTooLarge => 13,
            Refusal::OutOfRange => 14,
            Refusal::TooWide => 15,
            Refusal::OverLimit => 16,
            Refusal::NameTwice => 17,
            Refusal::UnknownMacro => 18,
            Refusal::MacroCircle => 19,
            Refusal::ListedWithoutPart => 20,
            Refusal::PartNotListed => 21,
            Refusal::NoSuchPart => 22,
            Refusal::PartCircle => 23,
            Refusal::UnknownName => 30,
            Refusal::NoSuchRank => 31,
            Refusal::PlaceTooHigh => 32,
            Refusal::WordTooHigh => 33,
            Refusal::BufferShort(_) => 34,
            Refusal::RunTooLong => 35,
            Refusal::BadSheet => 36,
            Refusal::NoPress => 37,
            Refusal::LastCycle => 40,
            Refusal::Astray => 41,
            Refusal::AddressPast => 42,
            Refusal::NothingWaits => 43,
            Refusal::NoSpace => 44,
        }
    }

    /// The refusal at a place.
    pub fn at(self, place: usize) -> Fault
        ensures { result ≡ record { refusal = self; place = place } }
    {
        Fault {
            refusal: self,
            place,
        }
    }
}

impl From<Fault> for Failure {
    ghost from_gives = { λ f r. r ≡ Refused f };

    fn from(fault: Fault) -> Failure {
        Failure::Refused(fault)
    }
}

impl From<AllocError> for Failure {
    ghost from_gives = { λ _ r. r ≡ NoMemory };

    fn from(_: AllocError) -> Failure {
        Failure::NoMemory
    }
}

impl<T: Drop> From<AllocFailed<T>> for Failure {
    ghost from_gives = { λ _ r. r ≡ NoMemory };

    fn from(_: AllocFailed<T>) -> Failure {
        Failure::NoMemory
    }
}
