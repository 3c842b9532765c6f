// The scope's cases on places: where a key starts, where a step leads, and how far steps go.
use crate::places::{start_of, step_from, steps_through};
use scan::Kind;
use std::io;

// The first places, and keys with a fault.
pub fn starting(rt: &impl Print) -> io::Result<()> {
    let ones = [b'1'; 97];
    start_of(rt, b"")?;
    start_of(rt, &ones)?;
    start_of(rt, b"3")?;
    start_of(rt, b"00")?;
    start_of(rt, b"0")?;
    start_of(rt, b"1")?;
    start_of(rt, b"00111010011")
}

// The places that a start and its steps reach.
pub fn stepping(rt: &impl Print) -> io::Result<()> {
    let k = b"00111010011";
    step_from(rt, k, 1, Kind::Turned)?;
    step_from(rt, k, 4, Kind::Word)?;
    step_from(rt, k, 7, Kind::Turned)?;
    step_from(rt, k, 12, Kind::Word)?;
    step_from(rt, k, 13, Kind::Turned)
}

// Places past the key, and out of range.
pub fn places(rt: &impl Print) -> io::Result<()> {
    step_from(rt, b"1", 0, Kind::Word)?;
    step_from(rt, b"1", 1, Kind::Word)?;
    step_from(rt, b"1", 160, Kind::Word)?;
    step_from(rt, b"1", 161, Kind::Word)?;
    step_from(rt, b"0", 0, Kind::Turned)?;
    step_from(rt, b"0", 1, Kind::Turned)?;
    step_from(rt, b"0", 160, Kind::Turned)?;
    step_from(rt, b"0", 161, Kind::Turned)
}

// The largest quotients, and which refusal comes first.
pub fn quotients(rt: &impl Print) -> io::Result<()> {
    let ones = [b'1'; 97];
    step_from(rt, &ones[..33], 1, Kind::Word)?;
    step_from(rt, &ones[..32], 1, Kind::Word)?;
    step_from(rt, b"000000000000000000000000000000001", 1, Kind::Turned)?;
    step_from(rt, b"0000000000000000000000000000000001", 1, Kind::Turned)?;
    step_from(rt, b"10", 0, Kind::Word)?;
    step_from(rt, &ones, 161, Kind::Word)
}

// All steps, to the end or a refusal.
pub fn steps(rt: &impl Print) -> io::Result<()> {
    let ones = [b'1'; 97];
    steps_through(rt, &ones[..33])?;
    steps_through(rt, b"000000000000000000000000000000001")?;
    steps_through(rt, &ones[..32])?;
    steps_through(rt, b"0")
}
