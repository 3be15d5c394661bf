//! The functions of an ALU.
ghost use Rattle.std.specs.Prelude.{◌≡◌};
ghost use Rattle.word.specs.Functions.{function_of, apply};

use crate::value::Word;

/// What an ALU does with its left and its right input.
#[derive(Clone, Copy, Debug, PartialEq, Eq)]
pub enum Function {
    /// 0, whatever the inputs are.
    Zero,
    /// The right input.
    Right,
    /// The left input.
    Left,
    /// The left input with each of its 31 bits turned.
    Not,
    /// The sum.
    Add,
    /// The left input less the right.
    Subtract,
    /// The left input, moved towards the highest bit by as many bits as the right input modulo 32 says.
    Shift,
    /// The product.
    Multiply,
    /// The bits that are 1 in both inputs.
    And,
    /// The bits that are 1 in an input.
    Or,
    /// The bits that are 1 in one input and 0 in the other.
    ExclusiveOr,
    /// 1 where the inputs are equal, else 0.
    Equal,
    /// 1 where the left input is below the right, else 0.
    Less,
}

impl From<u32> for Function {
    ghost from_gives = { λ code function. function ≡ function_of code };

    /// The function of a code; a code that stands for none is that of `Zero`.
    fn from(code: u32) -> Function {
        match code {
            1 => Function::Right,
            2 => Function::Left,
            3 => Function::Not,
            4 => Function::Add,
            5 => Function::Subtract,
            6 => Function::Shift,
            7 => Function::Multiply,
            8 => Function::And,
            9 => Function::Or,
            10 => Function::ExclusiveOr,
            12 => Function::Equal,
            13 => Function::Less,
            _ => Function::Zero,
        }
    }
}

impl Function {
    /// What the function makes of two words, modulo 2 to the power 31.
    pub fn apply(self, left: Word, right: Word) -> Word
        ensures { result.value ≡ apply self left.value right.value }
    {
        let l = left.value;
        let r = right.value;
        let value = match self {
            Function::Zero => 0,
            Function::Right => r,
            Function::Left => l,
            Function::Not => !l,
            Function::Add => l + r,
            Function::Subtract => l.wrapping_sub(r),
            Function::Shift => l.wrapping_shl(r),
            Function::Multiply => l.wrapping_mul(r),
            Function::And => l & r,
            Function::Or => l | r,
            Function::ExclusiveOr => l ^ r,
            Function::Equal => u32::from(l == r),
            Function::Less => u32::from(l < r),
        };
        Word::low(value)
    }
}

/// What an ALU shows, by the code of its function and its two inputs.
pub fn alu(function: Word, left: Word, right: Word) -> Word
    ensures { result.value ≡ apply (function_of function.value) left.value right.value }
{
    Function::from(function.value).apply(left, right)
}
