// Each call's result as its struct.
ghost use Rattle.std.specs.Prelude.{◌≡◌};
ghost use Rattle.refusals.specs.Answers.{answered};
ghost use Rattle.seek.specs.Answers.{stocked_as};
ghost use Rattle.lookup.specs.Answers.{found_as, listed_as};
ghost use Rattle.stock_structs.specs.Structs.{of_stocked, of_found, of_listed};

use crate::{Found, Listed, Stocked};
use refusals::Refusal;

impl From<Result<tables::Stocked, Refusal>> for Stocked {
    ghost from_gives = { λ answer s. of_stocked s ≡ answered 3 stocked_as answer };

    fn from(answer: Result<tables::Stocked, Refusal>) -> Stocked {
        match answer {
            Ok(row) => Stocked {
                refusal: 0,
                quantity: row.quantity,
                used: row.used,
                row: row.index,
            },
            Err(refusal) => Stocked {
                refusal: refusal.number(),
                ..Stocked::default()
            },
        }
    }
}

impl From<Result<lookup::Found, Refusal>> for Found {
    ghost from_gives = { λ answer s. of_found s ≡ answered 2 found_as answer };

    fn from(answer: Result<lookup::Found, Refusal>) -> Found {
        match answer {
            Ok(lookup::Found { index, quantity }) => Found {
                refusal: 0,
                quantity,
                row: index,
            },
            Err(refusal) => Found {
                refusal: refusal.number(),
                ..Found::default()
            },
        }
    }
}

impl From<Result<Option<lookup::Listed>, Refusal>> for Listed {
    ghost from_gives = { λ answer s. of_listed s ≡ answered 5 listed_as answer };

    fn from(answer: Result<Option<lookup::Listed>, Refusal>) -> Listed {
        match answer {
            Ok(Some(lookup::Listed { index, row })) => Listed {
                refusal: 0,
                numerator: row.numerator,
                denominator: row.denominator,
                quantity: row.quantity,
                row: index,
                found: true,
            },
            Ok(None) => Listed::default(),
            Err(refusal) => Listed {
                refusal: refusal.number(),
                ..Listed::default()
            },
        }
    }
}
