//! What is said while an opening takes long.
use st_journal_file::Progress;
use std::fmt::{self, Display, Formatter, Write};
use std::io::Eprint;

// A number with commas between its millions, thousands and ones.
#[derive(Clone, Copy, Drop)]
struct Grouped(u64);

impl Display for Grouped {
    fn fmt<W: Write>(&self, f: &mut Formatter<W>) -> fmt::Result {
        let millions = self.0 / 1_000_000;
        let thousands = self.0 / 1000 % 1000;
        let ones = self.0 % 1000;
        if millions > 0 {
            write!(f, "{millions},{thousands:03},{ones:03}")
        } else if thousands > 0 {
            write!(f, "{thousands},{ones:03}")
        } else {
            write!(f, "{ones}")
        }
    }
}

// Says on standard error how far an opening is, behind the program's name. A line that cannot be written is dropped.
#[derive(Drop)]
pub(crate) struct PrintedProgress<'a> {
    pub(crate) runtime: &'a HostRuntime,
    pub(crate) program: &'a str,
}

impl Progress for PrintedProgress<'_> {
    fn report(&self, count: u64, of: u64) {
        let program = self.program;
        let count = Grouped(count);
        let of = Grouped(of);
        let _told = self
            .runtime
            .eprintln(format_args!("{program}: opened {count} of {of} changes"));
    }
}
