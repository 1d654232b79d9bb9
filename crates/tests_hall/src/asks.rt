//! What the tests ask.
ghost use Rattle.std.specs.Prelude.{◌≡◌, true, false, IfSome};
ghost use Rattle.st_core.specs.Step.{asks_for_change};

use crate::halls::DIGEST;
use st_auth::Auths;
use st_box::Query;
use st_core::{Asked, Call, Reply, Token};
use st_dir::{Name, TableName};
use st_hall::{Desk, HallName};
use st_index::{Id, Note, Row};
use st_key::Point;
use st_label::Label;
use st_policy::{Entry, Request};
use std::alloc::{AllocError, Global};

/// What answers reads, as a desk does.
pub trait Reads {
    fn answer(&mut self, asked: &Asked) -> Result<Reply, AllocError>
        requires { asks_for_change asked.now ≡ false };
}

impl<H: HallName> Reads for Desk<H> {
    fn answer(&mut self, asked: &Asked) -> Result<Reply, AllocError> {
        self.read(asked)
    }
}

// Root's token.
fn token() -> Option<Token> {
    Some(Token {
        name: Name::new("root").ok()?,
        digest: DIGEST,
    })
}

// An id of this text.
fn id_of(alloc: Global, text: &str) -> Option<Id> {
    Id::new(alloc, text).ok()?
}

// A note without text.
fn no_note(alloc: Global) -> Option<Note> {
    Note::new(alloc, "").ok()?
}

// A row of this id, which everybody may see.
fn row(alloc: Global, id: &str) -> Option<Row> {
    let point = Point::new(1, 2, 3).ok()?;
    let label = Label::parse(alloc, "").ok()?;
    let id = id_of(alloc, id)?;
    let note = no_note(alloc)?;
    Some(Row {
        id,
        point,
        label,
        note,
    })
}

/// A put by root of a row of this id.
pub fn put(alloc: Global, id: &str) -> Option<Asked>
    ensures { IfSome result (λ asked. asks_for_change asked ≡ true) }
{
    let request = Request::Put {
        table: TableName::new("points").ok()?,
        row: row(alloc, id)?,
    };
    Some(Asked {
        token: token(),
        call: Call::Good(request),
    })
}

/// A request by root that makes a user v without authorizations.
pub fn create_user(alloc: Global) -> Option<Asked>
    ensures { IfSome result (λ asked. asks_for_change asked ≡ true) }
{
    let request = Request::CreateUser {
        user: Name::new("v").ok()?,
        digest: [0; 32],
        auths: Auths::from_list(alloc, &[]).ok()?,
    };
    Some(Asked {
        token: token(),
        call: Call::Good(request),
    })
}

// A count by root of all rows that everybody may see.
fn count(alloc: Global) -> Option<Asked>
    ensures { IfSome result (λ asked. asks_for_change asked ≡ false) }
{
    let request = Request::Count {
        table: TableName::new("points").ok()?,
        query: Query::new(0, 2_097_151, 0, 2_097_151, 0, 19_818_086_399).ok()?,
        auths: Auths::from_list(alloc, &[]).ok()?,
    };
    Some(Asked {
        token: token(),
        call: Call::Good(request),
    })
}

// A listing by root of the changes that were asked for.
fn audit() -> Asked
    ensures { asks_for_change result ≡ false }
{
    Asked {
        token: token(),
        call: Call::Good(Request::Audit),
    }
}

// The number of a count, or of the entries of a listing.
fn number_in(told: &Result<Reply, AllocError>) -> Option<u64> {
    match told {
        Ok(Reply::Count(number)) => Some(*number),
        Ok(Reply::Audit(entries)) => Some(entries.len() as u64),
        _ => None,
    }
}

// The number that a desk tells.
fn number_of<D: Reads>(desk: &mut D, asked: Asked) -> Option<u64>
    requires { asks_for_change asked ≡ false }
{
    let told = desk.answer(&asked);
    drop(asked);
    let number = number_in(&told);
    drop(told);
    number
}

/// How many rows a desk counts.
pub fn rows<D: Reads>(alloc: Global, desk: &mut D) -> Option<u64> {
    let asked = count(alloc)?;
    number_of(desk, asked)
}

/// How many changes a desk lists that were asked for.
pub fn entries<D: Reads>(desk: &mut D) -> Option<u64> {
    number_of(desk, audit())
}

// Whether entries are of these requests, in this order.
fn are_of(entries: &[Entry], wanted: &[&str]) -> bool {
    for (entry, request) in entries.iter().zip(wanted) {
        if !entry.request.is(*request) {
            return false;
        }
    }
    entries.len() == wanted.len()
}

// Whether a listing has entries of these requests, in this order.
fn lists(told: &Result<Reply, AllocError>, wanted: &[&str]) -> bool {
    match told {
        Ok(Reply::Audit(entries)) => are_of(entries.as_slice(), wanted),
        _ => false,
    }
}

// Whether a desk tells such a listing.
fn is_listing<D: Reads>(desk: &mut D, asked: Asked, wanted: &[&str]) -> bool
    requires { asks_for_change asked ≡ false }
{
    let told = desk.answer(&asked);
    drop(asked);
    let is_told = lists(&told, wanted);
    drop(told);
    is_told
}

/// Whether a desk lists changes by these requests, in this order.
pub fn are_listed<D: Reads>(desk: &mut D, wanted: &[&str]) -> bool {
    is_listing(desk, audit(), wanted)
}
