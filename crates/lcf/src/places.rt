// A place as its struct and back, and what starting and stepping answer.
ghost use Rattle.std.specs.Prelude.{◌≡◌};
ghost use Rattle.refusals.specs.Answers.{answered};
ghost use Rattle.scan.specs.Taking.{is_turned};
ghost use Rattle.step.specs.Answers.{place_as, stepped_as};
ghost use Rattle.lcf.specs.Structs.{of_started, of_stepped};

use crate::{Place, Started, Stepped};
use refusals::Refusal;
use scan::Kind;

impl From<Place> for scan::Place {
    ghost from_gives = { λ p r. (r.used ≡ p.used) × (is_turned r.due ≡ p.turned) };

    fn from(place: Place) -> scan::Place {
        scan::Place {
            used: place.used,
            due: if place.turned {
                Kind::Turned
            } else {
                Kind::Word
            },
        }
    }
}

impl From<scan::Place> for Place {
    ghost from_gives = { λ p r. (r.used ≡ p.used) × (r.turned ≡ is_turned p.due) };

    fn from(place: scan::Place) -> Place {
        Place {
            used: place.used,
            turned: place.due == Kind::Turned,
        }
    }
}

impl From<Result<scan::Place, Refusal>> for Started {
    ghost from_gives = { λ answer r. of_started r ≡ answered 2 place_as answer };

    fn from(answer: Result<scan::Place, Refusal>) -> Started {
        match answer {
            Ok(place) => Started {
                refusal: 0,
                place: place.into(),
            },
            Err(refusal) => Started {
                refusal: refusal.number(),
                ..Started::default()
            },
        }
    }
}

impl From<step::Stepped> for Stepped {
    ghost from_gives = { λ answer r. of_stepped r ≡ stepped_as answer };

    fn from(answer: step::Stepped) -> Stepped {
        let place = answer.place.into();
        match answer.met {
            Ok(Some(quotient)) => Stepped {
                refusal: 0,
                quotient,
                found: true,
                place,
            },
            Ok(None) => Stepped {
                place,
                ..Stepped::default()
            },
            Err(refusal) => Stepped {
                refusal: refusal.number(),
                place,
                ..Stepped::default()
            },
        }
    }
}
