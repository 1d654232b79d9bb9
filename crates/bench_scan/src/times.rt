//! What is timed.
use crate::rows::{HELD, row_in};
use st_auth::Auths;
use st_box::Query;
use st_index::Row;
use st_key::{Period, Place};
use st_table::{Seed, Table};
use st_ubtree::UbTree;
use std::alloc::{AllocError, Global};
use std::io;
use std::time::Instant;

// How many rows a page has.
const LIMIT: usize = 100;

// How many columns a grid has, and how many lines.
const SHARES: usize = 32;

// What the hashes of ids begin with.
const SEED: Seed = Seed {
    first: 0x243f_6a88_85a3_08d3,
    second: 0x1319_8a2e_0370_7344,
};

/// How long a call took, in nanoseconds, and how many rows it showed.
#[derive(Clone, Copy)]
pub struct Took {
    pub nanoseconds: u64,
    pub rows: u64,
}

// The nanoseconds since then.
fn since(rt: &HostRuntime, start: Instant) -> io::Result<u64> {
    let nanoseconds = start.elapsed(rt)?.as_nanos();
    Ok(u64::try_from(nanoseconds).unwrap_or(u64::MAX))
}

// How many rows the fields of a grid have together.
fn sum_of(counts: &[u64]) -> u64 {
    let mut rows = 0u64;
    for count in counts {
        rows = rows.wrapping_add(*count);
    }
    rows
}

/// A table of rows, and the authorizations for which its rows are counted.
#[derive(Drop)]
pub struct Bench {
    alloc: Global,
    table: Table<UbTree>,
    auths: Auths,
}

impl Bench {
    /// A table of no rows.
    pub fn new(alloc: Global) -> Result<Bench, AllocError> {
        let auths = match Auths::from_list(alloc, &HELD) {
            Ok(auths) => auths,
            Err(_) => Auths::none(alloc),
        };
        let tree = UbTree::new(alloc, Period::Week)?;
        let table = Table::new(alloc, SEED, tree)?;
        Ok(Bench {
            alloc,
            table,
            auths,
        })
    }

    /// Puts in the rows of a text's lines. Gives the nanoseconds of the puts.
    pub fn fill(&mut self, rt: &HostRuntime, text: &str) -> io::Result<u64> {
        let mut nanoseconds = 0u64;
        for line in text.lines() {
            nanoseconds = nanoseconds.wrapping_add(self.put_line(rt, line)?);
        }
        Ok(nanoseconds)
    }

    // Puts in the row of a line.
    fn put_line(&mut self, rt: &HostRuntime, line: &str) -> io::Result<u64> {
        match row_in(self.alloc, line)? {
            Some(row) => self.time_put(rt, row),
            None => Ok(0),
        }
    }

    // Times the put of a row.
    fn time_put(&mut self, rt: &HostRuntime, row: Row) -> io::Result<u64> {
        let start = Instant::now(rt)?;
        self.table.put(row)?;
        since(rt, start)
    }

    /// Takes out the rows of a text's lines. Gives the nanoseconds that this takes.
    pub fn empty(&mut self, rt: &HostRuntime, text: &str) -> io::Result<u64> {
        let mut nanoseconds = 0u64;
        for line in text.lines() {
            nanoseconds = nanoseconds.wrapping_add(self.delete_line(rt, line)?);
        }
        Ok(nanoseconds)
    }

    // Takes out the row of a line.
    fn delete_line(&mut self, rt: &HostRuntime, line: &str) -> io::Result<u64> {
        match row_in(self.alloc, line)? {
            Some(row) => self.time_delete(rt, &row),
            None => Ok(0),
        }
    }

    // Times how a row is taken out.
    fn time_delete(&mut self, rt: &HostRuntime, row: &Row) -> io::Result<u64> {
        let start = Instant::now(rt)?;
        self.table.delete(row.id.as_str(), row.label.text());
        since(rt, start)
    }

    /// Times a count of a box.
    pub fn count(&self, rt: &HostRuntime, query: &Query) -> io::Result<Took> {
        let start = Instant::now(rt)?;
        let rows = self.table.count(query, &self.auths);
        let nanoseconds = since(rt, start)?;
        Ok(Took { nanoseconds, rows })
    }

    /// Times a grid of a box. How many rows its fields have together is added up once the clock is read.
    pub fn grid(&self, rt: &HostRuntime, query: &Query) -> io::Result<Took> {
        let start = Instant::now(rt)?;
        let counts = self.fields(query)?;
        let nanoseconds = since(rt, start)?;
        let rows = sum_of(counts.as_slice());
        Ok(Took { nanoseconds, rows })
    }

    // The fields of a box's grid.
    fn fields(&self, query: &Query) -> Result<Vec<u64>, AllocError> {
        match self.table.grid(query, &self.auths, SHARES, SHARES) {
            Ok(counts) => Ok(counts),
            Err(_) => Err(AllocError),
        }
    }

    /// Times a page of 100 rows of a box.
    pub fn page(&self, rt: &HostRuntime, query: &Query) -> io::Result<Took> {
        let start = Instant::now(rt)?;
        let rows = self.first_rows(query)?;
        let nanoseconds = since(rt, start)?;
        Ok(Took { nanoseconds, rows })
    }

    // How many rows the first page of a box has.
    fn first_rows(&self, query: &Query) -> Result<u64, AllocError> {
        let after: Option<&Place<Global>> = None;
        match self.table.page(query, &self.auths, after, LIMIT) {
            Ok(page) => Ok(page.rows.len() as u64),
            Err(_) => Err(AllocError),
        }
    }
}
