//! The program: the arguments, files and streams of the system, and the one call that does all the rest.
#![tactic(auto)]

use std::env;
use std::process::ExitCode;
use te_command::serve;
use te_ports::{RealDepot, RealSink};

fn main(rt: HostRuntime) -> ExitCode {
    let alloc = rt.alloc();
    let args = env::args(&rt);
    let mut out = RealSink::new(rt.stdout());
    let mut err = RealSink::new(rt.stderr());
    let mut depot = RealDepot::new(rt);
    ExitCode::from(serve(alloc, args, &mut depot, &mut out, &mut err))
}
