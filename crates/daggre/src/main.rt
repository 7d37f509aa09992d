//! `daggre`: the verified core of a combinatorial prediction market.
#![tactic(auto)]

mod ask;
mod asking;
mod asks;
mod call;
mod last_line;
mod program;
mod sample;
mod words;

use call::call;
use mk_disk::StdDisk;
use mk_io::{StdInputs, StdSink};
use std::env;
use std::process::ExitCode;

fn main(rt: HostRuntime) -> ExitCode {
    let mut inputs = StdInputs::new(&rt);
    let mut out = StdSink::new(&rt);
    let mut disk = StdDisk::new(&rt);
    ExitCode::from(call(rt.alloc(), env::args(&rt), &mut inputs, &mut out, &mut disk))
}
