// A reader: a lent key, held together with a place in it. None of these has a branch or a loop: the work is `step`'s.
ghost use Rattle.std.specs.Prelude.{◌≡◌};
ghost use Rattle.step.specs.Answers.{stepped_as, step_from};

use crate::Stepped;
use scan::Place;

#[derive(Clone, Copy)]
pub struct Reader<'a> {
    pub key: &'a [u8],
    pub place: Place,
}

impl<'a> Reader<'a> {
    // A reader of key at a place.
    pub fn hold(key: &'a [u8], place: Place) -> Reader<'a>
        ensures { (result.key ≡ key.entry) × (result.place ≡ place) }
    {
        Reader { key, place }
    }

    // What the reader meets next, and the place after it.
    pub fn next(self) -> Stepped
        ensures { stepped_as result ≡ step_from self.entry.key.now self.entry.place }
    {
        crate::step(self.key, self.place)
    }

    // The same key at another place, as at that which a step gave.
    pub fn moved(self, place: Place) -> Reader<'a>
        ensures { (result.key ≡ self.entry.key) × (result.place ≡ place) }
    {
        Reader {
            key: self.key,
            place,
        }
    }
}

// The same as `next`, for a caller that holds no reader.
pub fn next_at(key: &[u8], place: Place) -> Stepped
    ensures { stepped_as result ≡ step_from key.now place }
{
    Reader::hold(key, place).next()
}
