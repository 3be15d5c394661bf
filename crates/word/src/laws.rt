//! Laws of the functions of an ALU, and of bits by their places.
ghost use Rattle.word.specs.Laws.{ShiftCases, FunctionLaws, PlaceLaws};

/// A shift by 30 keeps the lowest bit alone, and one by 32 moves nothing.
pub fn shift_cases_stand()
    ensures { ShiftCases }
{}

/// The functions of an ALU make words of words, a sum undoes a difference, and each other code stands for none.
pub fn function_laws_stand()
    ensures { FunctionLaws }
{}

/// What is put behind another is found again, and neighbouring ranges give the range of both.
pub fn place_laws_stand()
    ensures { PlaceLaws }
{}
