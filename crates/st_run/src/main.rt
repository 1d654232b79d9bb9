//! `st_run --root DIGEST [--store FILE] [--compact] [NAME]...` serves standard input to standard output, as one connection.
#![tactic(auto)]

mod sqlite;

use sqlite::run_files;
use sqlite_std_file::Unknown;
use st_command_line::{RunArguments, give_up, refuse, words_of};
use st_connection::{FromRead, FromWrite};
use st_store_file::shorten_for_run;
use std::process::ExitCode;

// Makes the list of the store short where that is asked for, and serves.
fn serve(rt: &HostRuntime, said: &RunArguments<'_>) -> u8 {
    let mut reader = FromRead::new(rt.stdin());
    let mut writer = FromWrite::new(rt.stdout());
    let mut faults = rt.stderr();
    match shorten_for_run(rt, Unknown, said, &mut faults) {
        Ok(journal) => {
            drop(journal);
            run_files(rt, Unknown, said, &mut reader, &mut writer, &mut faults)
        }
        Err(fault) => give_up("st_run", fault, &mut faults),
    }
}

fn main(rt: HostRuntime) -> ExitCode {
    let status = match words_of(&rt) {
        Ok(words) => match RunArguments::read(rt.alloc(), &words) {
            Ok(said) => serve(&rt, &said),
            Err(fault) => refuse("st_run", fault, &mut rt.stdout(), &mut rt.stderr()),
        },
        Err(fault) => give_up("st_run", fault, &mut rt.stderr()),
    };
    ExitCode::from(status)
}
