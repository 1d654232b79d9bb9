//! The field `after`, which says where a page begins.
ghost use Rattle.std.specs.Prelude.{IfOk};
ghost use Rattle.serde_json.specs.View.{view};
ghost use Rattle.st_json.specs.Fields.{WritesPlace, HasAfter};
ghost use Rattle.st_policy.specs.declared.field_name.FieldName.TheVariants as names;
ghost use Rattle.st_policy.specs.declared.refusal.Refusal.TheVariants.{Field as OfField};
ghost use Rattle.st_json.specs.Needs.{Has, Obeys};
ghost use Rattle.st_json.specs.inner.Parts.{Picks};

use crate::fault::DecodeFault::{self, Refused};
use crate::value;
use serde_json::Value;
use st_key::Place;
use st_policy::FieldName;
use st_policy::Refusal::Field;
use st_text::Words;
use std::alloc::{AllocError, Allocator};

// The place that an object writes.
fn place_of<A: Allocator + Copy>(alloc: A, value: &Value) -> Result<Option<Place<A>>, AllocError>
    ensures { IfOk result (Picks (WritesPlace (view value.now))) }
{
    let Some(point) = value::point(value) else {
        return Ok(None);
    };
    let Some(id) = value::text(value, "id") else {
        return Ok(None);
    };
    let Some(label) = value::text(value, "label") else {
        return Ok(None);
    };
    Ok(Some(Place {
        point,
        id: Words::new(alloc, id)?,
        label: Words::new(alloc, label)?,
    }))
}

fn after_in<A: Allocator + Copy>(
    alloc: A,
    object: &Value,
) -> Result<Option<Option<Place<A>>>, AllocError>
    ensures { IfOk result (Picks (HasAfter (view object.now))) }
{
    let Some(value) = object.get("after") else {
        return Ok(Some(None));
    };
    if value.is_null() {
        return Ok(Some(None));
    }
    match place_of(alloc, value)? {
        Some(place) => Ok(Some(Some(place))),
        None => Ok(None),
    }
}

// The field `after`: a point, an id and a label, any two texts; none if it is absent or null.
pub(crate) fn after<A: Allocator + Copy>(
    alloc: A,
    object: &Value,
) -> Result<Option<Place<A>>, DecodeFault>
    ensures { Obeys (Has (OfField names.After) (HasAfter (view object.now))) result }
{
    match after_in(alloc, object)? {
        Some(after) => Ok(after),
        None => Err(Refused(Field {
            name: FieldName::After,
        })),
    }
}
