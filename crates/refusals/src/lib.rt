// Why a call refuses. Each variant has the scope's number, and stands for the definition of its name in `outcomes`, files
// Refusals and Stocking; each call's own contract says which it gives, and when.
#![tactic(auto)]

ghost use Rattle.std.specs.Prelude.{◌≡◌};

use std::fmt;

#[derive(Clone, Copy, Debug, PartialEq, Eq)]
pub enum Refusal {
    ZeroDenominator = 1,
    // A buffer that is too short, or a table's memory that isn't 1 to 2,048 whole rows.
    WrongSize = 2,
    EmptyKey = 3,
    LongKey = 4,
    StrangeKey = 5,
    OpenKey = 6,
    OutOfRange = 7,
    // A width that isn't 1 to 96, or a place that isn't 1 to 160 characters on.
    Outside = 8,
    WrongColumn = 9,
    Malformed = 10,
    TableFull = 11,
    NoSuchRatio = 12,
    LargeSum = 13,
    TooFew = 14,
    NoQuantity = 15,
    UnsoundTable = 16,
}

impl Refusal {
    ghost use Rattle.refusals.specs.Numbers.{number_of};

    // The scope's number.
    pub fn number(self) -> u32
        ensures { result ≡ number_of self }
    {
        self as u32
    }
}

impl fmt::Display for Refusal {
    fn fmt<W: fmt::Write>(&self, f: &mut fmt::Formatter<W>) -> fmt::Result {
        write!(f, "refused {}", self.number())
    }
}
