// The calls' results as structs. Where a call refuses, counts and values are zero.
ghost use Rattle.std.specs.Prelude.{◌≡◌};
ghost use Rattle.refusals.specs.Answers.{answered, terms_as, one_as, none_as};
ghost use Rattle.write.specs.Answers.{written_as};
ghost use Rattle.compare.specs.Answers.{standing_as};
ghost use Rattle.lcf.specs.Structs.{of_written, of_ratio, of_text, of_column, of_standing};

use crate::{Column, Ratio, Standing, Text, Written};
use fractions::Fraction;
use refusals::Refusal;
use std::cmp::Ordering;

impl From<Result<write::Written, Refusal>> for Written {
    ghost from_gives = { λ answer r. of_written r ≡ answered 2 written_as answer };

    fn from(answer: Result<write::Written, Refusal>) -> Written {
        match answer {
            Ok(written) => Written {
                refusal: 0,
                quotients: written.quotients,
                characters: written.characters,
            },
            Err(refusal) => Written {
                refusal: refusal.number(),
                ..Written::default()
            },
        }
    }
}

impl From<Result<Fraction, Refusal>> for Ratio {
    ghost from_gives = { λ answer r. of_ratio r ≡ answered 2 terms_as answer };

    fn from(answer: Result<Fraction, Refusal>) -> Ratio {
        match answer {
            Ok(ratio) => Ratio {
                refusal: 0,
                numerator: ratio.numerator,
                denominator: ratio.denominator,
            },
            Err(refusal) => Ratio {
                refusal: refusal.number(),
                ..Ratio::default()
            },
        }
    }
}

impl From<Result<usize, Refusal>> for Text {
    ghost from_gives = { λ answer r. of_text r ≡ answered 1 one_as answer };

    fn from(answer: Result<usize, Refusal>) -> Text {
        match answer {
            Ok(characters) => Text {
                refusal: 0,
                characters,
            },
            Err(refusal) => Text {
                refusal: refusal.number(),
                ..Text::default()
            },
        }
    }
}

impl From<Result<(), Refusal>> for Column {
    ghost from_gives = { λ answer r. of_column r ≡ answered 0 none_as answer };

    fn from(answer: Result<(), Refusal>) -> Column {
        match answer {
            Ok(()) => Column::default(),
            Err(refusal) => Column {
                refusal: refusal.number(),
            },
        }
    }
}

impl From<Result<Ordering, Refusal>> for Standing {
    ghost from_gives = { λ answer r. of_standing r ≡ answered 1 standing_as answer };

    fn from(answer: Result<Ordering, Refusal>) -> Standing {
        match answer {
            Ok(Ordering::Less) => Standing {
                refusal: 0,
                standing: 1,
            },
            Ok(Ordering::Equal) => Standing {
                refusal: 0,
                standing: 2,
            },
            Ok(Ordering::Greater) => Standing {
                refusal: 0,
                standing: 3,
            },
            Err(refusal) => Standing {
                refusal: refusal.number(),
                ..Standing::default()
            },
        }
    }
}
