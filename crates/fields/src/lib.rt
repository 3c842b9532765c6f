// A ratio as it is typed, digits, a slash and digits, fed byte by byte. Whatever was fed, it takes the same few numbers
// to hold: a numeral of more than ten digits makes the whole malformed, and one over the limit stops growing.
#![tactic(auto)]

ghost use Rattle.std.specs.Prelude.{◌≡◌, cond, ltb};
ghost use Rattle.fields.specs.Fields.{longer, fed_digit, fed_slash, feed_of, is_blank, typed_of};

use fractions::Fraction;
use refusals::Refusal;

// What was fed of a numeral so far.
#[derive(Clone, Copy)]
pub struct Numeral {
    pub digits: u32,
    pub value: u64,
}

impl Numeral {
    // One digit further, if there are fewer than ten. Over the limit the value stays, so that it always fits.
    fn longer(self, digit: u8) -> Option<Numeral>
        ensures { result ≡ cond (ltb self.digits 10) (Some (longer self digit)) None }
    {
        if self.digits >= 10 {
            return None;
        }
        let value = if self.value > u32::MAX as u64 {
            self.value
        } else {
            self.value * 10 + digit as u64
        };
        Some(Numeral {
            digits: self.digits + 1,
            value,
        })
    }
}

// What was fed so far: nothing; digits; digits, a slash and perhaps digits; or what no ratio begins with. The numeral
// that grows comes first, so that a digit is added at the same place in memory.
#[derive(Clone, Copy)]
pub enum Field {
    Empty,
    First(Numeral),
    Second {
        denominator: Numeral,
        numerator: u64,
    },
    Bad,
}

impl Field {
    fn feed_digit(self, digit: u8) -> Field
        ensures { result ≡ fed_digit self digit }
    {
        match self {
            Field::Empty => Field::First(Numeral {
                digits: 1,
                value: digit as u64,
            }),
            Field::First(numeral) => match numeral.longer(digit) {
                Some(numeral) => Field::First(numeral),
                None => Field::Bad,
            },
            Field::Second {
                denominator,
                numerator,
            } => match denominator.longer(digit) {
                Some(denominator) => Field::Second {
                    denominator,
                    numerator,
                },
                None => Field::Bad,
            },
            Field::Bad => Field::Bad,
        }
    }

    fn feed_slash(self) -> Field
        ensures { result ≡ fed_slash self }
    {
        match self {
            Field::First(numeral) => Field::Second {
                denominator: Numeral {
                    digits: 0,
                    value: 0,
                },
                numerator: numeral.value,
            },
            _ => Field::Bad,
        }
    }

    // The field after one byte more, a digit, a slash or anything else; none where a newline ended the line.
    pub fn feed(self, byte: u8) -> Option<Field>
        ensures { result ≡ feed_of self byte }
    {
        match byte {
            b'\n' => None,
            b'0'..=b'9' => Some(self.feed_digit(byte - b'0')),
            b'/' => Some(self.feed_slash()),
            _ => Some(Field::Bad),
        }
    }

    // Whether nothing was fed yet.
    pub fn is_blank(self) -> bool
        ensures { result ≡ is_blank self }
    {
        matches!(self, Field::Empty)
    }

    // The ratio that was typed, not reduced, if it is one and its numerals are within the limit.
    pub fn settle(self) -> Result<Fraction, Refusal>
        ensures { result ≡ typed_of self }
    {
        let Field::Second {
            denominator,
            numerator,
        } = self
        else {
            return Err(Refusal::Malformed);
        };
        if denominator.digits == 0 {
            return Err(Refusal::Malformed);
        }
        let numerator = u32::try_from(numerator).map_err(|_| Refusal::OutOfRange)?;
        let denominator = u32::try_from(denominator.value).map_err(|_| Refusal::OutOfRange)?;
        Ok(Fraction {
            numerator,
            denominator,
        })
    }
}
