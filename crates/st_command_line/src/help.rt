//! The help or the version of a program, printed to who asks for it.
ghost use Rattle.std.specs.Prelude.{◌≡◌, ◌⊎◌, Ok, IfOk, IfErr, false, true};
ghost use Rattle.clap.specs.Words.{kind_of};
ghost use Rattle.st_command_line.specs.Help.{asks_for_help, is_help};
ghost use Rattle.st_command_line.specs.Status.{exit_status_of};
ghost use Rattle.st_command_line.specs.declared.fault.Fault.TheVariants.{Write as Unwritten};

use crate::fault::{Fault, give_up};
use clap::error::ErrorKind;
use std::io::Write;

// Writes the text of an error.
fn tell<O: Write>(error: &clap::Error, output: &mut O) -> Result<(), Fault>
    ensures { IfErr result (λ fault. fault ≡ Unwritten) }
{
    match write!(output, "{error}") {
        Ok(()) => Ok(()),
        Err(_) => Err(Fault::Write),
    }
}

// Whether an error is the help or the version, and no mistake.
fn is_help(error: &clap::Error) -> bool
    ensures { result ≡ is_help (kind_of error.now) }
{
    matches!(
        error.kind(),
        ErrorKind::DisplayHelp | ErrorKind::DisplayVersion
    )
}

// Writes the text of a fault that is the help or the version, and says whether it is.
fn print_help<O: Write>(fault: &Fault, output: &mut O) -> Result<bool, Fault>
    ensures ok { IfOk result (λ is_printed. is_printed ≡ asks_for_help fault.now) }
    ensures unasked { (result ≡ Ok false) → O.contents output.new ≡ O.contents output.old }
    ensures err { IfErr result (λ other. (other ≡ Unwritten) × (asks_for_help fault.now ≡ true)) }
{
    let Fault::Usage(error) = fault else {
        return Ok(false);
    };
    if !is_help(error) {
        return Ok(false);
    }
    tell(error, output)?;
    Ok(true)
}

/// Ends a program whose arguments were not read, and returns the exit status: the help or the version goes to `output` where the
/// command line asks for it, with status 0, or 5 if it could not be written. Every other fault is told on `faults` (`give_up`).
pub fn refuse<O: Write, F: Write>(program: &str, fault: Fault, output: &mut O, faults: &mut F) -> u8
    ensures asked { asks_for_help fault ≡ true → (result ≡ 0) ⊎ (result ≡ exit_status_of Unwritten) }
    ensures status { asks_for_help fault ≡ false → result ≡ exit_status_of fault }
    ensures unasked { asks_for_help fault ≡ false → O.contents output.new ≡ O.contents output.old }
{
    match print_help(&fault, output) {
        Ok(true) => 0,
        Ok(false) => give_up(program, fault, faults),
        Err(unwritten) => give_up(program, unwritten, faults),
    }
}
