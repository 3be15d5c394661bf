//! The verdict on a drawing: what its text means or which refusal it meets, as definitions in `specs/`, and what is proved of them.
#![tactic(auto)]

ghost use Rattle.verdict.specs.Lines.{AcceptedAlike, LinesMeanNothing, CircularExactly, NamesByRank};
ghost use Rattle.verdict.specs.Written.{MacrosPutIn};
ghost use Rattle.verdict.specs.Blanks.{BlanksMeanNothing};
ghost use Rattle.verdict.specs.Bench.{BenchCases};
ghost use Rattle.verdict.specs.Sound.{ReadsBack, AcceptedSound, ListingAccepted};

/// Two accepted texts that differ only in the order of their parts give one circuit.
pub fn lines_mean_nothing()
    ensures { LinesMeanNothing }
{}

/// Texts of the same words get the same verdict, whatever their titles, blanks and comments: one circuit, or one refusal at one word.
pub fn blanks_mean_nothing()
    ensures { BlanksMeanNothing }
{}

/// A text is refused as circular exactly if it meets nothing else and no order of its parts exists.
pub fn circular_exactly()
    ensures { CircularExactly }
{}

/// Where the macros meet no refusal, a field says one thing with all its macros put in, and is judged by its first 1,024 bytes.
pub fn macros_put_in()
    ensures { MacrosPutIn }
{}

/// The places that a refused circle is told at go with the circuit's parts.
pub fn names_by_rank()
    ensures { NamesByRank }
{}

/// A text that differs from an accepted one only in the order of its parts is accepted as the same circuit.
pub fn accepted_alike()
    ensures { AcceptedAlike }
{}

/// The listing of a sound circuit is accepted as that circuit.
pub fn reads_back()
    ensures { ReadsBack }
{}

/// Every accepted circuit is sound.
pub fn accepted_sound()
    ensures { AcceptedSound }
{}

/// The listing of an accepted circuit is accepted as that circuit.
pub fn listing_accepted()
    ensures { ListingAccepted }
{}

/// Some numbers, expressions and drawings mean what they should.
pub fn bench_cases_stand()
    ensures { BenchCases }
{}
