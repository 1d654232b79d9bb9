//! What a body, its numbers, its texts and the name in the path make: each function gives that, or the refusal.
ghost use Rattle.serde_json.specs.View.{view, items_view};
ghost use Rattle.st_json.specs.Needs.{Obeys};
ghost use Rattle.st_json.specs.Rules.{ObjectOf, QueryOf, LabelOf, TableOf, UserOf, NamespaceOf};
ghost use Rattle.st_json.specs.Rules.{AuthsOf, IsQuery};
ghost use Rattle.st_json.specs.inner.Parts.{Picks, viewed, texts_among};

use crate::fault::DecodeFault::{self, NoMemory, Refused};
use crate::value::{self, Bounds};
use serde_json::Value;
use st_auth::{Auths, AuthsFault};
use st_box::Query;
use st_dir::{Name, TableName};
use st_label::{Label, LabelFault, MAX_LEN};
use st_policy::FieldName;
use st_policy::Refusal::{BadBox, BadLabel, BadName, Json};
use std::alloc::{Allocator, Global};

// The object in a body.
pub(crate) fn object(global: Global, body: &[u8]) -> Result<Value, DecodeFault>
    ensures { Obeys (ObjectOf body.now) (viewed view result) }
{
    match Value::from_slice(global, body) {
        Ok(value) => {
            if value.is_object() {
                Ok(value)
            } else {
                Err(Refused(Json))
            }
        }
        Err(e) => {
            if e.is_memory() {
                Err(NoMemory)
            } else {
                Err(Refused(Json))
            }
        }
    }
}

fn query_at(bounds: Bounds) -> Option<Query>
    ensures { Picks (IsQuery bounds) result }
{
    let Bounds {
        x0,
        x1,
        y0,
        y1,
        t0,
        t1,
    } = bounds;
    Query::new(x0, x1, y0, y1, t0, t1).ok()
}

// The query of six numbers.
pub(crate) fn query(bounds: Bounds) -> Result<Query, DecodeFault>
    ensures { Obeys (QueryOf bounds) result }
{
    match query_at(bounds) {
        Some(query) => Ok(query),
        None => Err(Refused(BadBox)),
    }
}

// The label that the text writes.
pub(crate) fn label<A: Allocator + Copy>(alloc: A, text: &str) -> Result<Label<A>, DecodeFault>
    ensures { Obeys (LabelOf text.now) result }
{
    match Label::parse(alloc, text) {
        Ok(label) => Ok(label),
        Err(LabelFault::BadLabel { at }) => Err(Refused(BadLabel { at: at as u64 })),
        Err(LabelFault::TooDeep { at }) => Err(Refused(BadLabel { at: at as u64 })),
        Err(LabelFault::TooLong) => Err(Refused(BadLabel { at: MAX_LEN as u64 })),
        Err(LabelFault::NoMemory) => Err(NoMemory),
    }
}

// The name of a table.
pub(crate) fn table(text: &str) -> Result<TableName, DecodeFault>
    ensures { Obeys (TableOf text.now) result }
{
    match TableName::new(text) {
        Ok(table) => Ok(table),
        Err(_) => Err(Refused(BadName {
            field: FieldName::Table,
        })),
    }
}

// The name of a user.
pub(crate) fn user(text: &str) -> Result<Name, DecodeFault>
    ensures { Obeys (UserOf text.now) result }
{
    match Name::new(text) {
        Ok(user) => Ok(user),
        Err(_) => Err(Refused(BadName {
            field: FieldName::User,
        })),
    }
}

// The name of a namespace.
pub(crate) fn namespace(text: &str) -> Result<Name, DecodeFault>
    ensures { Obeys (NamespaceOf text.now) result }
{
    match Name::new(text) {
        Ok(namespace) => Ok(namespace),
        Err(_) => Err(Refused(BadName {
            field: FieldName::Namespace,
        })),
    }
}

// The authorizations that the texts among the items name.
pub(crate) fn auths<A: Allocator + Copy>(alloc: A, items: &[Value]) -> Result<Auths<A>, DecodeFault>
    ensures { Obeys (AuthsOf (texts_among (items_view items.now))) result }
{
    let names = value::texts_among(alloc, items)?;
    match Auths::from_list(alloc, &names) {
        Ok(auths) => Ok(auths),
        Err(AuthsFault::BadName { .. }) => Err(Refused(BadName {
            field: FieldName::Auths,
        })),
        Err(AuthsFault::NoMemory) => Err(NoMemory),
    }
}
