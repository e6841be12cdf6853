//! The program: vertex programs over graphs, by their synchronous rounds, and on a cluster by a schedule.
#![tactic(auto)]

mod answer;
mod chosen;
mod command;
mod ended;
mod inputs;
mod laws;
mod load;
mod plain;
mod played;
mod reading;
mod refusal;
mod reply;
mod run;
mod told;
mod top;
mod workload;

use crate::top::imitate;
use gr_outside::{RealFiles, RealSink};
use std::alloc::Global;
use std::process::ExitCode;
use std::{env, io};

fn main(rt: HostRuntime) -> ExitCode {
    match arguments(&rt) {
        Ok(arguments) => ExitCode::from(status(&rt, &arguments)),
        Err(error) if error.kind() == io::ErrorKind::OutOfMemory => ExitCode::from(1),
        Err(_) => ExitCode::from(status(&rt, &[])),
    }
}

// The words after the program's name. A word that is not UTF-8 is an error.
fn arguments(rt: &HostRuntime) -> io::Result<Vec<String>> {
    let mut words = Vec::new(rt.alloc());
    for word in env::args(rt)?.skip(1) {
        words.push(word)?;
    }
    Ok(words)
}

fn status(rt: &HostRuntime, arguments: &[String]) -> u8 {
    let alloc = rt.alloc();
    let mut words = Vec::new(alloc);
    for argument in arguments {
        if words.push(argument.as_str()).is_err() {
            return 1;
        }
    }
    let mut files = RealFiles::new(rt);
    let mut out = RealSink::new(rt.stdout());
    let mut err = RealSink::new(rt.stderr());
    imitate(alloc, &words, &mut files, &mut out, &mut err)
}

#[cfg(test)]
mod tests;
