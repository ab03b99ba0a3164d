//! The program `jlpkg`: makes the place, the store and the sinks of the machine, runs one command and ends with its code.
#![tactic(auto)]

mod host_sink;
mod host_store;
#[cfg(test)]
mod host_tests;
mod surroundings;
#[cfg(test)]
mod world_tests;

use host_sink::HostSink;
use host_store::HostStore;
use pkg_top::run;
use read_once::ReadOnce;
use std::process::ExitCode;
use surroundings::{Surroundings, read_surroundings, refuse};

fn main(rt: HostRuntime) -> ExitCode {
    match read_surroundings(&rt) {
        Ok(found) => ExitCode::from(run_there(rt, &found)),
        Err(refusal) => ExitCode::from(refuse(&rt, &refusal)),
    }
}

/// Runs the command over the files and outputs of the machine, and gives its exit code. Each file of TOML is asked for
/// once.
fn run_there(rt: HostRuntime, found: &Surroundings) -> u8 {
    let alloc = rt.alloc();
    let mut out = HostSink::new(rt.stdout());
    let mut err = HostSink::new(rt.stderr());
    let mut store = ReadOnce::over(alloc, HostStore::new(rt));
    let ended = run(
        alloc,
        found.words.as_slice(),
        &found.place,
        &mut store,
        &mut out,
        &mut err,
    );
    ended.status.code()
}
