//! The operations of a line list, by their codes (FITS 4.0, section 10.4.3).

ghost use Rattle.std.specs.Prelude.{◌≡◌, ◌≤◌, MatchOption};
ghost use Rattle.fz_plio.specs.Operation.{code_of};

/// What an instruction does with its number N to the high value and to the line.
#[derive(Clone, Copy, Debug, PartialEq, Eq)]
pub enum Operation {
    /// Writes N zeros.
    Zeros = 0,
    /// The high value becomes N + 4096 × the next word.
    SetHigh = 1,
    /// The high value grows by N.
    Raise = 2,
    /// The high value falls by N.
    Lower = 3,
    /// Writes the high value N times.
    Highs = 4,
    /// Writes N - 1 zeros and then the high value once.
    ZerosThenHigh = 5,
    /// The high value grows by N, and is then written once.
    RaiseThenHigh = 6,
    /// The high value falls by N, and is then written once.
    LowerThenHigh = 7,
}

impl Operation {
    /// The operation with this code; none if the code is above 7.
    #[inline]
    pub fn of(code: u16) -> Option<Operation>
        ensures { MatchOption result (8 ≤ code) (λ operation. code_of operation ≡ code) }
    {
        match code {
            0 => Some(Operation::Zeros),
            1 => Some(Operation::SetHigh),
            2 => Some(Operation::Raise),
            3 => Some(Operation::Lower),
            4 => Some(Operation::Highs),
            5 => Some(Operation::ZerosThenHigh),
            6 => Some(Operation::RaiseThenHigh),
            7 => Some(Operation::LowerThenHigh),
            _ => None,
        }
    }
}
