//! Of all that is wrong in one word, the refusal of the smallest number.
ghost use Rattle.std.specs.Prelude.{◌≡◌, ℕ, min, Some, None};
ghost use Rattle.numbers.specs.Judged.{both};
ghost use Rattle.numbers.specs.Answers.{judged_by, Placed};
ghost use Rattle.items.specs.Least.{fault_number, lesser, paired, least_met, with_fault, refused_by};

use refusal::kinds::Fault;

/// The fault of the smallest number among those met.
#[derive(Clone, Copy, Debug, PartialEq, Eq)]
pub struct Smallest {
    met: Option<Fault>,
}

/// The one of two faults that has the smaller number; the first if they have the same.
pub fn smaller(one: Fault, other: Fault) -> Fault
    ensures which { result ≡ lesser one other }
    ensures least { fault_number result ≡ min (fault_number one) (fault_number other) }
{
    if other.refusal.number() < one.refusal.number() {
        other
    } else {
        one
    }
}

/// What both give, or the smaller fault.
pub fn both<X: Copy, Y: Copy>(
    one: Result<X, Fault>,
    other: Result<Y, Fault>,
) -> Result<(X, Y), Fault>
    ensures value { result ≡ paired one other }
    ensures judged { judged_by (λ p. p) result ≡ both (judged_by (λ x. x) one) (judged_by (λ y. y) other) }
    ensures placed { (place : ℕ) → Placed place one → Placed place other → Placed place result }
{
    match (one, other) {
        (Ok(x), Ok(y)) => Ok((x, y)),
        (Err(first), Err(second)) => Err(smaller(first, second)),
        (Err(fault), Ok(_)) | (Ok(_), Err(fault)) => Err(fault),
    }
}

impl Smallest {
    /// Nothing is met yet.
    pub fn new() -> Smallest
        ensures { least_met result ≡ None }
    {
        Smallest { met: None }
    }

    /// One fault more.
    pub fn meet(&mut self, fault: Fault)
        ensures { least_met self.new ≡ Some (with_fault (least_met self.old) fault) }
    {
        self.met = Some(self.met.map_or(fault, |before| smaller(before, fault)));
    }

    /// The smallest fault as a refusal.
    pub fn answer(self) -> Result<(), Fault>
        ensures { result ≡ refused_by (least_met self) }
    {
        self.met.map_or(Ok(()), Err)
    }
}
