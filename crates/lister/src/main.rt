// The ratio lister: a ratio in each line of standard input, and for each line its answer on standard output. It reads
// and writes in large parts and holds two buffers, however long the input and its lines are.
#![tactic(auto)]

ghost use Rattle.std.specs.Prelude.{◌≡◌, [], ◌++◌, ◌+◌, ◌≤◌, ◌<◌, length, IfOk, OnOk};
ghost use Rattle.std.specs.Io.KnownBytes.{Appends};
ghost use Rattle.lines.specs.Machines.{whole};
ghost use Rattle.list.specs.Ratios.{ratios};
ghost use Rattle.lister.specs.declared.TheConstants.{PART};
ghost use Rattle.lister.specs.Flow.{ListsSome, ListsPart, Passes, WritesAll, WritesListing};

use fields::Field;
use std::io::{Read, Write};
use std::process::ExitCode;
use std::{fmt, io};

// How many bytes each buffer holds.
const PART: usize = 65_536;

// What failed, where the lister stops before the end of its input.
#[derive(Debug, Drop)]
enum Stopped {
    Reading(io::Error),
    Writing(io::Error),
}

impl fmt::Display for Stopped {
    fn fmt<W: fmt::Write>(&self, f: &mut fmt::Formatter<W>) -> fmt::Result {
        match self {
            Stopped::Reading(e) => write!(f, "reading: {e}"),
            Stopped::Writing(e) => write!(f, "writing: {e}"),
        }
    }
}

// The writer, the answers that wait for it at the front of a buffer, and the field of the line that isn't ended yet.
// The lister asks for no memory, so the buffer is an array, with a count beside it.
#[derive(Drop)]
struct Output<W> {
    to: W,
    buffer: [u8; PART],
    held: usize,
    field: Field,
    ghost size: { length buffer ≡ PART },
    ghost within: { held ≤ PART },
}

impl<W: Write> Output<W> {
    ghost use Rattle.lister.specs.Waits.{waits};

    // Writes what waits.
    fn flush(&mut self) -> Result<(), Stopped>
        ensures written { OnOk result (Appends (W.contents self.old.to) (W.contents self.new.to)
            (waits self.old)) }
        ensures empty { OnOk result (self.new.held ≡ 0) }
        ensures same { self.new.field ≡ self.old.field }
    {
        self.to
            .write_all(&self.buffer[..self.held])
            .map_err(Stopped::Writing)?;
        self.held = 0;
        Ok(())
    }

    // Room for an answer: where there is less, what waits is written.
    fn make_room(&mut self) -> Result<(), Stopped>
        ensures room { OnOk result (self.new.held + 130 ≤ PART) }
        ensures passes { OnOk result (Passes (W.contents self.old.to) (W.contents self.new.to)
            (waits self.old) [] (waits self.new)) }
        ensures same { self.new.field ≡ self.old.field }
    {
        if self.buffer.len() - self.held < list::ROOM {
            self.flush()?;
        }
        Ok(())
    }

    // Lists as much of a part as there is room for, which is something, and tells how much that is.
    fn list_some(&mut self, part: &[u8]) -> Result<usize, Stopped>
        requires { 0 < length part.now }
        ensures { IfOk result (λ taken. ListsSome (W.contents self.old.to) (W.contents self.new.to) self.old.field
            part.now (waits self.old) taken self.new.field (waits self.new)) }
    {
        self.make_room()?;
        let listed = list::list(self.field, part, &mut self.buffer[self.held..]);
        self.held += listed.written;
        self.field = listed.field;
        Ok(listed.taken)
    }

    // Lists all of a part.
    fn list_part(&mut self, part: &[u8]) -> Result<(), Stopped>
        ensures { OnOk result (ListsPart (W.contents self.old.to) (W.contents self.new.to) self.old.field part.now
            (waits self.old) self.new.field (waits self.new)) }
    {
        let mut left = part;
        while !left.is_empty() {
            let taken = self.list_some(left)?;
            left = &left[taken..];
        }
        Ok(())
    }

    // The end of the input: a last line that has no newline is listed, and all is written.
    fn end(&mut self) -> Result<(), Stopped>
        ensures { OnOk result (Appends (W.contents self.old.to) (W.contents self.new.to)
            (waits self.old ++ whole ratios self.old.field [])) }
    {
        self.make_room()?;
        self.held += list::finish(self.field, &mut self.buffer[self.held..]).written;
        self.flush()
    }

    // Lists all that a reader has, by way of a buffer. Nothing says that an input ends, so the turns are counted, up to
    // a number that no run uses up.
    fn list_all<R: Read>(&mut self, from: &mut R, input: &mut [u8]) -> Result<(), Stopped>
        ensures { OnOk result (WritesAll (R.remaining from.old) (length input.old) (W.contents self.old.to)
            (W.contents self.new.to) (waits self.old) self.old.field) }
    {
        for _ in 0..u64::MAX {
            let n = from.read(input).map_err(Stopped::Reading)?;
            if n == 0 {
                return self.end();
            }
            self.list_part(&input[..n])?;
        }
        Ok(())
    }
}

// Lists all that a reader has, and gives the writer back.
fn list_input<R: Read, W: Write + Drop>(from: &mut R, to: W) -> Result<W, Stopped>
    ensures { IfOk result (λ written. WritesListing (R.remaining from.old) (W.contents to) (W.contents written)) }
{
    let mut input = [0; PART];
    let mut output = Output {
        to,
        buffer: [0; PART],
        held: 0,
        field: Field::Empty,
    };
    output.list_all(from, &mut input)?;
    Ok(output.to)
}

fn main(rt: HostRuntime) -> ExitCode {
    match list_input(&mut rt.stdin(), rt.stdout()) {
        Ok(_) => ExitCode::SUCCESS,
        Err(stopped) => {
            let _ = eprintln!(rt; "lister: {stopped}");
            ExitCode::FAILURE
        }
    }
}
