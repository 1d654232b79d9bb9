//! The rows of which later changes decide.
ghost use Rattle.std.specs.Prelude.{◌≡◌, ◌≤◌, ◌||◌, false, length, IfOk, OnOk, string_bytes};
ghost use Rattle.std.specs.declared.alloc.Global.{Global as Heap};
ghost use Rattle.st_text.specs.Texts.{same};
ghost use Rattle.st_table.specs.Rows.{Held, is_held};
ghost use Rattle.st_journal_compact.specs.Shortening.{decides, is_undone};
ghost use Rattle.st_journal_compact.specs.inner.Stages.{joined, knows, knows_row};

use st_journal::ReplayError;
use st_policy::Request;
use std::alloc::{AllocError, Global};
use std::collections::HashSet;

// The rows that were put or deleted, and the tables that were dropped.
#[derive(Drop)]
pub(crate) struct Decided {
    alloc: Global,
    rows: HashSet<String>,
    tables: HashSet<String>,
}

// The most bytes of a table's name, and of an id, whose number is one byte of ASCII.
const MOST: usize = 127;

// The name of a row as one text.
fn join(alloc: Global, table: &str, id: &str, label: &str) -> Result<String, AllocError>
    requires { (length table.now ≤ 127) × (length id.now ≤ 127) }
    ensures { IfOk result (λ text. string_bytes text ≡ joined table.now id.now label.now) }
{
    let mut text = String::new(alloc);
    text.push(char::from(table.len() as u8))?;
    text.push(char::from(id.len() as u8))?;
    text.push_str(table)?;
    text.push_str(id)?;
    text.push_str(label)?;
    Ok(text)
}

// The name of a row as one text. No table has so long a name, and no row such an id, that it is `Invalid`.
fn name_of(alloc: Global, table: &str, id: &str, label: &str) -> Result<String, ReplayError>
    ensures { IfOk result (λ text. string_bytes text ≡ joined table.now id.now label.now) }
{
    if table.len() > MOST || id.len() > MOST {
        return Err(ReplayError::Invalid);
    }
    match join(alloc, table, id, label) {
        Ok(text) => Ok(text),
        Err(AllocError) => Err(ReplayError::NoMemory),
    }
}

impl Decided {
    /// No row.
    pub fn new(alloc: Global) -> Decided
        ensures { (held : Held Heap) → knows result held ≡ false }
    {
        Decided {
            alloc,
            rows: HashSet::new(alloc),
            tables: HashSet::new(alloc),
        }
    }

    // Whether a later change decides what becomes of the row.
    fn has(&self, table: &str, id: &str, label: &str) -> Result<bool, ReplayError>
        ensures { IfOk result (λ has. has ≡ knows_row self.now table.now id.now label.now) }
    {
        if self.tables.contains(table) {
            return Ok(true);
        }
        let text = name_of(self.alloc, table, id, label)?;
        Ok(self.rows.contains(text.as_str()))
    }

    /// Whether later changes leave no trace of this one in the rows.
    pub fn undoes(&self, request: &Request) -> Result<bool, ReplayError>
        ensures { IfOk result (λ told. told ≡ is_undone request.now (knows self.now)) }
    {
        match request {
            Request::Put { table, row } => self.has(
                table.as_str(),
                row.id.as_str(),
                row.label.text(),
            ),
            Request::Delete { .. } => Ok(true),
            _ => Ok(false),
        }
    }

    // Decides of a row.
    fn add_row(&mut self, table: &str, id: &str, label: &str) -> Result<(), ReplayError>
        ensures { OnOk result ((held : Held Heap)
            → knows self.new held ≡ (is_held table.now id.now label.now held || knows self.old held)) }
    {
        let text = name_of(self.alloc, table, id, label)?;
        let Ok(_) = self.rows.insert(text) else {
            return Err(ReplayError::NoMemory);
        };
        Ok(())
    }

    // Decides of the rows of a table.
    fn add_table(&mut self, table: &str) -> Result<(), ReplayError>
        ensures { OnOk result ((held : Held Heap) → knows self.new held ≡ (same held.table table.now || knows self.old held)) }
    {
        let Ok(text) = String::from_str(self.alloc, table) else {
            return Err(ReplayError::NoMemory);
        };
        let Ok(_) = self.tables.insert(text) else {
            return Err(ReplayError::NoMemory);
        };
        Ok(())
    }

    /// Puts an accepted change in front of the later ones.
    pub fn add(&mut self, request: &Request) -> Result<(), ReplayError>
        ensures { OnOk result ((held : Held Heap) → knows self.new held ≡ (decides request.now held || knows self.old held)) }
    {
        match request {
            Request::Put { table, row } => {
                self.add_row(table.as_str(), row.id.as_str(), row.label.text())
            }
            Request::Delete { table, id, label } => {
                self.add_row(table.as_str(), id.as_str(), label.text())
            }
            Request::DropTable { table } => self.add_table(table.as_str()),
            _ => Ok(()),
        }
    }
}
