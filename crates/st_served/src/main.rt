//! `st_served --root DIGEST (--port P [--listen ADDRESS] | --socket PATH) [--store FILE] [--compact] [--copy FILE]
//! [--copy-every SECONDS] [--workers N] [--connections N] [--timeout SECONDS] [--idle SECONDS] [NAME]...` serves connections at a port
//! or a socket.
#![tactic(auto)]

mod sqlite;

use sqlite::serve_files;
use sqlite_std_file::Unknown;
use st_command_line::{ServedArguments, give_up, refuse, words_of};
use st_store_file::shorten_for_served;
use std::process::ExitCode;

fn main(rt: HostRuntime) -> ExitCode {
    let mut output = rt.stdout();
    let mut faults = rt.stderr();
    let status = match words_of(&rt) {
        Ok(words) => match ServedArguments::read(rt.alloc(), &words) {
            Ok(said) => match shorten_for_served(&rt, Unknown, &said, &mut faults) {
                Ok(journal) => {
                    drop(journal);
                    serve_files(&rt, &rt, Unknown, &said, &mut output, &mut faults)
                }
                Err(fault) => give_up("st_served", fault, &mut faults),
            },
            Err(fault) => refuse("st_served", fault, &mut output, &mut faults),
        },
        Err(fault) => give_up("st_served", fault, &mut faults),
    };
    ExitCode::from(status)
}
