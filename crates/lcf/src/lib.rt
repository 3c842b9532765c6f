// The calls as C sees them: each hands its arguments on and gives the answer as a struct that begins with the refusal's
// number; the outcome is that of the call behind it. Nothing is decided here. The crate lcf_c exports them.
#![tactic(auto)]

ghost use Rattle.std.specs.Prelude.{[], ◌≡◌};
ghost use Rattle.outcomes.specs.Outcomes.{leaves};
ghost use Rattle.outcomes.specs.Writing.{write_text, write_column};
ghost use Rattle.outcomes.specs.Reading.{read_text, read_column};
ghost use Rattle.outcomes.specs.Packing.{column_to_text, text_to_column};
ghost use Rattle.outcomes.specs.Comparing.{compare_text};
ghost use Rattle.outcomes.specs.Cutting.{cut_text};
ghost use Rattle.outcomes.specs.Stepping.{start_text, step_text};
ghost use Rattle.lcf.specs.Structs.{of_written, of_ratio, of_text, of_column, of_standing, of_started, of_stepped};
ghost use Rattle.lcf.specs.Structs.{earlier_in};

mod answers;
mod places;
pub mod stocking;

// C's structs. C gets no enum from an export, so why a call refused is its number, 0 where it didn't, and all else is
// zero then. The header and the programs built with it name these fields.
#[repr(C)]
#[derive(Clone, Copy, Default)]
pub struct Written {
    pub refusal: u32,
    pub quotients: u32,
    pub characters: usize,
}

#[repr(C)]
#[derive(Clone, Copy, Default)]
pub struct Ratio {
    pub refusal: u32,
    pub numerator: u32,
    pub denominator: u32,
}

#[repr(C)]
#[derive(Clone, Copy, Default)]
pub struct Text {
    pub refusal: u32,
    pub characters: usize,
}

#[repr(C)]
#[derive(Clone, Copy, Default)]
pub struct Column {
    pub refusal: u32,
}

// 1 before, 2 same, 3 after.
#[repr(C)]
#[derive(Clone, Copy, Default)]
pub struct Standing {
    pub refusal: u32,
    pub standing: u32,
}

#[repr(C)]
#[derive(Clone, Copy, Default)]
pub struct Place {
    pub used: usize,
    pub turned: bool,
}

#[repr(C)]
#[derive(Clone, Copy, Default)]
pub struct Started {
    pub refusal: u32,
    pub place: Place,
}

// found: whether there is a quotient; there is none at the end.
#[repr(C)]
#[derive(Clone, Copy, Default)]
pub struct Stepped {
    pub refusal: u32,
    pub quotient: u32,
    pub found: bool,
    pub place: Place,
}

pub fn lcf_write_text(numerator: u32, denominator: u32, out: &mut [u8]) -> Written
    ensures { leaves (of_written result) out.new ≡ write_text numerator denominator out.old }
{
    write::write_text(numerator, denominator, out).into()
}

pub fn lcf_write_column(numerator: u32, denominator: u32, out: &mut [u8]) -> Written
    ensures { leaves (of_written result) out.new ≡ write_column numerator denominator out.old }
{
    write::write_column(numerator, denominator, out).into()
}

pub fn lcf_read_text(key: &[u8]) -> Ratio
    ensures { leaves (of_ratio result) [] ≡ read_text key.now }
{
    read::read_text(key).into()
}

pub fn lcf_read_column(column: &[u8]) -> Ratio
    ensures { leaves (of_ratio result) [] ≡ read_column column.now }
{
    read::read_column(column).into()
}

pub fn lcf_column_to_text(column: &[u8], out: &mut [u8]) -> Text
    ensures { leaves (of_text result) out.new ≡ column_to_text column.now out.old }
{
    pack::column_to_text(column, out).into()
}

pub fn lcf_text_to_column(key: &[u8], out: &mut [u8]) -> Column
    ensures { leaves (of_column result) out.new ≡ text_to_column key.now out.old }
{
    pack::text_to_column(key, out).into()
}

pub fn lcf_compare(first: &[u8], second: &[u8]) -> Standing
    ensures { leaves (of_standing result) [] ≡ compare_text first.now second.now }
{
    compare::compare(first, second).into()
}

// 1 for the first key, 2 for the second, 0 where comparing refuses: which of the two `compare::earlier` hands back. By
// the struct, so that one compiled comparison serves both calls, and for speed becomes a part of the other.
pub fn lcf_earlier(first: &[u8], second: &[u8]) -> u32
    ensures { result ≡ earlier_in (compare_text first.now second.now) }
{
    match lcf_compare(first, second) {
        Standing {
            refusal: 0,
            standing: 3,
        } => 2,
        Standing { refusal: 0, .. } => 1,
        _ => 0,
    }
}

pub fn lcf_cut(key: &[u8], width: usize, out: &mut [u8]) -> Text
    ensures { leaves (of_text result) out.new ≡ cut_text key.now width out.old }
{
    cut::cut(key, width, out).into()
}

pub fn lcf_start(key: &[u8]) -> Started
    ensures { leaves (of_started result) [] ≡ start_text key.now }
{
    step::start(key).into()
}

pub fn lcf_step(key: &[u8], place: Place) -> Stepped
    ensures { of_stepped result ≡ step_text key.now place.used place.turned }
{
    step::step(key, place.into()).into()
}
