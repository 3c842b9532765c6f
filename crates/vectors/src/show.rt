// How a line shows what it speaks of, and an answer.
use fractions::Fraction;
use refusals::Refusal;
use scan::{Kind, Place};
use std::cmp::Ordering;
use std::{fmt, io};

// A text key, or what isn't one, character by character.
#[derive(Clone, Copy)]
pub struct Text<'a>(pub &'a [u8]);

impl fmt::Display for Text<'_> {
    fn fmt<W: fmt::Write>(&self, f: &mut fmt::Formatter<W>) -> fmt::Result {
        for c in self.0 {
            write!(f, "{}", *c as char)?;
        }
        Ok(())
    }
}

// A column's bytes in hexadecimal, one space between.
#[derive(Clone, Copy)]
pub struct Column<'a>(pub &'a [u8]);

impl fmt::Display for Column<'_> {
    fn fmt<W: fmt::Write>(&self, f: &mut fmt::Formatter<W>) -> fmt::Result {
        let mut gap = "";
        for b in self.0 {
            write!(f, "{gap}{b:02X}")?;
            gap = " ";
        }
        Ok(())
    }
}

#[derive(Clone, Copy)]
pub struct Ratio(pub Fraction);

impl fmt::Display for Ratio {
    fn fmt<W: fmt::Write>(&self, f: &mut fmt::Formatter<W>) -> fmt::Result {
        let Ratio(
            Fraction {
                numerator,
                denominator,
            },
        ) = *self;
        write!(f, "{numerator}/{denominator}")
    }
}

// How the first of two keys stands to the second.
#[derive(Clone, Copy)]
pub struct Standing(pub Ordering);

impl fmt::Display for Standing {
    fn fmt<W: fmt::Write>(&self, f: &mut fmt::Formatter<W>) -> fmt::Result {
        f.write_str(match self.0 {
            Ordering::Less => "before",
            Ordering::Equal => "same",
            Ordering::Greater => "after",
        })
    }
}

// A place in a key: the characters used, and the kind of word due there.
#[derive(Clone, Copy)]
pub struct At(pub Place);

impl fmt::Display for At {
    fn fmt<W: fmt::Write>(&self, f: &mut fmt::Formatter<W>) -> fmt::Result {
        let At(Place { used, due }) = *self;
        let due = match due {
            Kind::Word => "word",
            Kind::Turned => "turned",
        };
        write!(f, "{used} {due}")
    }
}

// What a step met.
#[derive(Clone, Copy)]
pub struct Met(pub Result<Option<u32>, Refusal>);

impl fmt::Display for Met {
    fn fmt<W: fmt::Write>(&self, f: &mut fmt::Formatter<W>) -> fmt::Result {
        match self.0 {
            Ok(Some(quotient)) => write!(f, "{quotient}"),
            Ok(None) => f.write_str("end"),
            Err(refusal) => write!(f, "{refusal}"),
        }
    }
}

// What a call gave, or its refusal, and the end of the line.
pub fn answer<T: fmt::Display + Drop>(
    rt: &impl Print,
    answer: Result<T, Refusal>,
) -> io::Result<()> {
    match answer {
        Ok(given) => println!(rt; "{given}"),
        Err(refusal) => println!(rt; "{refusal}"),
    }
}
