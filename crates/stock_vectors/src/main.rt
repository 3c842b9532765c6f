// Runs the calls of the stock table on the scope's cases, and prints a line for each: the case, and what was found.
// Every line is made from a call's answer; what is expected is in the file `stdout` alone.
#![tactic(auto)]

mod calls;
mod histories;
mod refused;

use std::io;

fn main(rt: HostRuntime) -> io::Result<()> {
    refused::sizes(&rt)?;
    refused::rows(&rt)?;
    refused::looking(&rt)?;
    refused::changing(&rt, &mut [7; 24])?;
    histories::counter(&rt, &mut [7; 36])?;
    histories::limits(&rt, &mut [7; 36])?;
    histories::listing(&rt)
}
