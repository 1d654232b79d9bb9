//! Reads exchanges with a service from standard input, asks them, and writes to standard output what the service answers.
//! The head of `stdin` says how an exchange is written.
#![tactic(auto)]

mod bytes;
mod exchange;
mod fault;
mod request;
mod service;

use exchange::answer_all;
use fault::Fault;
use std::io::{self, Write};
use std::process::ExitCode;

// Asks the exchanges of standard input. What was answered before a fault is written too.
fn run(rt: &HostRuntime) -> Result<(), Fault> {
    let text = io::read_to_string(rt.alloc(), rt.stdin())?;
    let mut output = Vec::new(rt.alloc());
    let outcome = answer_all(rt.alloc(), text.as_str(), &mut output);
    rt.stdout().write_all(output.as_slice())?;
    outcome
}

fn main(rt: HostRuntime) -> ExitCode {
    match run(&rt) {
        Ok(()) => ExitCode::SUCCESS,
        Err(fault) => {
            let _ = eprintln!(rt; "tests_exchanges: {}", fault.text());
            ExitCode::from(fault.status())
        }
    }
}
