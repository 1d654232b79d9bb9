//! Replies.
use crate::entry::Entry;
use crate::refusal::Refusal;
use st_dir::{Account, Grantee, Name, TableInfo};
use st_index::Row;
use st_label::Label;
use st_plan::Plan;
use st_text::Items;
use std::alloc::{Allocator, Global};

/// What is told to who asked.
pub enum Reply<A: Allocator = Global> {
    /// A change was made.
    Accepted,
    /// A user.
    Who(Account<A>),
    /// The tables, by the bytes of their names.
    Tables(Items<TableInfo, A>),
    /// The names of the users, by their bytes.
    Users(Items<Name, A>),
    /// Who has been granted what on a table or a namespace, by the bytes of the users' names.
    Grants(Items<Grantee<A>, A>),
    /// The normal form of a label.
    Normal { label: Label<A> },
    /// The rows under an id, by the bytes of their labels' texts.
    Rows(Items<Row<A>, A>),
    /// A page of a scan, in scan order, and whether more rows follow its last one.
    Page { rows: Items<Row<A>, A>, more: bool },
    /// A number of rows.
    Count(u64),
    /// The number of rows in each field of a grid, line by line.
    Grid(Items<u64, A>),
    /// The ranges of a query's keys, for each part of its span.
    Plan(Plan<A>),
    /// The last changes that were asked for, oldest first.
    Audit(Items<Entry, A>),
    /// Nothing was changed or shown.
    Refused(Refusal),
}

// Written out, and not derived: a derived drop is proved anew in each crate that owns a reply.
impl<A: Allocator> Drop for Reply<A> {
    fn drop(self) {
        match self {
            Reply::Accepted => {}
            Reply::Who(_account) => {}
            Reply::Tables(_tables) => {}
            Reply::Users(_users) => {}
            Reply::Grants(_grants) => {}
            Reply::Normal { label: _label } => {}
            Reply::Rows(_rows) => {}
            Reply::Page {
                rows: _rows,
                more: _more,
            } => {}
            Reply::Count(_count) => {}
            Reply::Grid(_counts) => {}
            Reply::Plan(_plan) => {}
            Reply::Audit(_entries) => {}
            Reply::Refused(_refusal) => {}
        }
    }
}
