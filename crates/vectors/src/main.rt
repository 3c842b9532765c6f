// Runs the calls on the cases that 001 and the scope print, and prints a line for each: the case, and what was found.
// Every line is made from a call's answer; what is expected is in the file `stdout` alone.
#![tactic(auto)]

mod buffers;
mod gaps;
mod limits;
mod paper;
mod places;
mod ratios;
mod refusing;
mod show;
mod texts;
mod walks;

use std::io;

fn main(rt: HostRuntime) -> io::Result<()> {
    paper::table_one(&rt)?;
    paper::section_three(&rt)?;
    limits::table(&rt)?;
    limits::range(&rt)?;
    limits::faults(&rt)?;
    limits::cutting(&rt)?;
    limits::counts(&rt)?;
    refusing::ratios(&rt)?;
    refusing::columns(&rt)?;
    refusing::texts(&rt)?;
    refusing::packed(&rt)?;
    refusing::comparing(&rt)?;
    refusing::earlier(&rt)?;
    refusing::cutting(&rt)?;
    walks::starting(&rt)?;
    walks::stepping(&rt)?;
    walks::places(&rt)?;
    walks::quotients(&rt)?;
    walks::steps(&rt)
}
