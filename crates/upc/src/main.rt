//! The command `upc`: runs the top call over a file, standard output and standard error.
#![tactic(auto)]

use std::process::ExitCode;
use upc_host::{HostFiles, HostSink, host_words};
use upc_text::OpenGate;
use upc_top::upc_main;

fn main(rt: HostRuntime) -> ExitCode {
    let mut out = HostSink::new(rt.stdout());
    let mut err = HostSink::new(rt.stderr());
    let words = match host_words(&rt, &mut err) {
        Ok(words) => words,
        Err(status) => return ExitCode::from(status),
    };
    let mut files = HostFiles::new(&rt, words.as_slice());
    let done = upc_main(
        &rt,
        rt.alloc(),
        words.as_slice(),
        &mut files,
        &mut out,
        &mut err,
        &OpenGate,
    );
    ExitCode::from(done.status)
}
