//! What is noted of a memory in a step.
ghost use Rattle.std.specs.Prelude.{◌≡◌};
ghost use Rattle.ports.specs.Accesses.{access_of};

use word::value::Word;

/// What an operation asks to be noted of its memory.
#[derive(Clone, Copy, Debug, PartialEq, Eq)]
pub enum Access {
    Write,
    Read,
}

/// What was noted of a memory: the access, its address, and the word held then.
#[derive(Clone, Copy, Debug, PartialEq, Eq)]
pub struct Note {
    pub access: Access,
    pub address: Word,
    pub held: Word,
}

impl Access {
    /// What an operation asks to be noted: a writing if it has bits 0 and 2, a reading if it has bit 3 and not bit 0.
    pub fn of_operation(operation: Word) -> Option<Access>
        ensures { result ≡ access_of operation.value }
    {
        let bits = operation.value;
        match (bits & 1 == 1, bits & 4 == 4, bits & 8 == 8) {
            (true, true, _) => Some(Access::Write),
            (false, _, true) => Some(Access::Read),
            _ => None,
        }
    }
}
