//! The endpoints about labels and rows.
ghost use Rattle.std.specs.Prelude.{◌≡◌, IfOk};
ghost use Rattle.serde_json.specs.View.{view};
ghost use Rattle.st_index.specs.Texts.{IsId, IsNote};
ghost use Rattle.st_http.specs.declared.routes.Endpoint.TheVariants as endpoints;
ghost use Rattle.st_json.specs.Needs.{Obeys};
ghost use Rattle.st_json.specs.Bodies.{Made};

use crate::fault::DecodeFault;
use crate::{field, rule};
use serde_json::Value;
use st_index::{Id, Note, Row};
use st_key::Point;
use st_label::Label;
use st_policy::{FieldName, Request};
use std::alloc::{AllocError, Allocator};

// The id of a text of 1 to 64 bytes.
fn owned_id<A: Allocator + Copy>(alloc: A, text: &str) -> Result<Id<A>, AllocError>
    requires { IsId text.now }
    ensures { IfOk result (λ id. id ≡ text.now) }
{
    let Some(id) = Id::new(alloc, text)? else {
        unreachable!()
    };
    Ok(id)
}

// The note of a text of at most 4,096 bytes.
fn owned_note<A: Allocator + Copy>(alloc: A, text: &str) -> Result<Note<A>, AllocError>
    requires { IsNote text.now }
    ensures { IfOk result (λ note. note ≡ text.now) }
{
    let Some(note) = Note::new(alloc, text)? else {
        unreachable!()
    };
    Ok(note)
}

// The row of these parts.
fn row_of<A: Allocator + Copy>(
    alloc: A,
    id: &str,
    point: Point,
    label: Label<A>,
    note: &str,
) -> Result<Row<A>, AllocError>
    requires id { IsId id.now }
    requires note { IsNote note.now }
    ensures { IfOk result (λ row. row ≡ record { id = id.now; point = point; label = label; note = note.now }) }
{
    let id = owned_id(alloc, id)?;
    let note = owned_note(alloc, note)?;
    Ok(Row {
        id,
        point,
        label,
        note,
    })
}

// The request that `POST /label` makes.
pub(crate) fn label<A: Allocator + Copy>(
    alloc: A,
    name: &str,
    object: &Value,
) -> Result<Request<A>, DecodeFault>
    ensures { Obeys (Made endpoints.Label name.now (view object.now)) result }
{
    let text = field::text(object, FieldName::Label)?;
    let label = rule::label(alloc, text)?;
    Ok(Request::Label { label })
}

// The request that `POST /tables/{table}/get` makes.
pub(crate) fn get<A: Allocator + Copy>(
    alloc: A,
    name: &str,
    object: &Value,
) -> Result<Request<A>, DecodeFault>
    ensures { Obeys (Made endpoints.Get name.now (view object.now)) result }
{
    let id = field::id(object)?;
    let texts = field::auths(object)?;
    let table = rule::table(name)?;
    let auths = rule::auths(alloc, texts)?;
    let owned = owned_id(alloc, id)?;
    Ok(Request::Get {
        table,
        id: owned,
        auths,
    })
}

// The request that `POST /tables/{table}/count` makes.
pub(crate) fn count<A: Allocator + Copy>(
    alloc: A,
    name: &str,
    object: &Value,
) -> Result<Request<A>, DecodeFault>
    ensures { Obeys (Made endpoints.Count name.now (view object.now)) result }
{
    let bounds = field::bounds(object)?;
    let texts = field::auths(object)?;
    let query = rule::query(bounds)?;
    let table = rule::table(name)?;
    let auths = rule::auths(alloc, texts)?;
    Ok(Request::Count {
        table,
        query,
        auths,
    })
}

// The request that `POST /tables/{table}/put` makes.
pub(crate) fn put<A: Allocator + Copy>(
    alloc: A,
    name: &str,
    object: &Value,
) -> Result<Request<A>, DecodeFault>
    ensures { Obeys (Made endpoints.Put name.now (view object.now)) result }
{
    let id = field::id(object)?;
    let point = field::point(object)?;
    let text = field::text(object, FieldName::Label)?;
    let note = field::note(object)?;
    let label = rule::label(alloc, text)?;
    let table = rule::table(name)?;
    let row = row_of(alloc, id, point, label, note)?;
    Ok(Request::Put { table, row })
}

// The request that `POST /tables/{table}/delete` makes.
pub(crate) fn delete<A: Allocator + Copy>(
    alloc: A,
    name: &str,
    object: &Value,
) -> Result<Request<A>, DecodeFault>
    ensures { Obeys (Made endpoints.Delete name.now (view object.now)) result }
{
    let id = field::id(object)?;
    let text = field::text(object, FieldName::Label)?;
    let label = rule::label(alloc, text)?;
    let table = rule::table(name)?;
    let owned = owned_id(alloc, id)?;
    Ok(Request::Delete {
        table,
        id: owned,
        label,
    })
}
