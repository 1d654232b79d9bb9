//! The fields of a body. Each function gives the value of a field, or refuses a body in which it is missing, of another
//! type or out of range.
ghost use Rattle.std.specs.Prelude.{◌≡◌, ◌≤◌, IfOk, IfSome, codes, length, option_and_then, option_map};
ghost use Rattle.serde_json.specs.Find.{as_bool, get};
ghost use Rattle.serde_json.specs.View.{view, items_view};
ghost use Rattle.st_grant.specs.Permissions.{system_permission_named, table_permission_named};
ghost use Rattle.st_index.specs.Texts.{IsId, IsNote};
ghost use Rattle.st_policy.specs.declared.field_name.FieldName.TheVariants as names;
ghost use Rattle.st_policy.specs.declared.refusal.Refusal.TheVariants.{Field as OfField};
ghost use Rattle.st_json.specs.Fields.{HasPoint, as_period, digest_of, period_or_week, sized, text_in};
ghost use Rattle.st_json.specs.Needs.{Has, Obeys};
ghost use Rattle.st_json.specs.Rules.{AuthsField, BoxField, Found, IdField, ReadField, TextField, ValueField};
ghost use Rattle.st_json.specs.inner.Parts.{viewed, texts_among};

use crate::fault::DecodeFault::{self, Refused};
use crate::value::{self, Bounds};
use hex::FromHex;
use serde_json::Value;
use st_dir::{SystemPermission, TablePermission};
use st_index::{MAX_ID, MAX_NOTE};
use st_key::{Period, Point};
use st_policy::FieldName;
use st_policy::Refusal::Field;

// A field's value, or its refusal.
pub(crate) fn required<T: Drop>(name: FieldName, found: Option<T>) -> Result<T, DecodeFault>
    ensures { Obeys (Found name found) result }
{
    match found {
        Some(value) => Ok(value),
        None => Err(Refused(Field { name })),
    }
}

// The text in the field of this name.
pub(crate) fn text<'a>(object: &'a Value, name: FieldName) -> Result<&'a str, DecodeFault>
    ensures { Obeys (TextField name (view object.now)) (viewed (λ s. s.now) result) }
{
    match value::text(object, name.name()) {
        Some(text) => Ok(text),
        None => Err(Refused(Field { name })),
    }
}

// The text, if its length in bytes is in the range.
fn sized(text: &str, least: usize, most: usize) -> Option<&str>
    ensures value { option_map (λ s. s.now) result ≡ sized least most text.now }
    ensures fits { IfSome result (λ s. (least ≤ length s.now) × (length s.now ≤ most)) }
{
    if least <= text.len() && text.len() <= most {
        Some(text)
    } else {
        None
    }
}

fn id_in(object: &Value) -> Option<&str>
    ensures value { option_map (λ s. s.now) result ≡ option_and_then (sized 1 64) (text_in (codes "id") (view object.now)) }
    ensures fits { IfSome result (λ s. IsId s.now) }
{
    sized(value::text(object, "id")?, 1, MAX_ID)
}

// The field `id`: 1 to 64 bytes.
pub(crate) fn id(object: &Value) -> Result<&str, DecodeFault>
    ensures value { Obeys (IdField (view object.now)) (viewed (λ s. s.now) result) }
    ensures fits { IfOk result (λ s. IsId s.now) }
{
    match id_in(object) {
        Some(id) => Ok(id),
        None => Err(Refused(Field {
            name: FieldName::Id,
        })),
    }
}

fn note_in(object: &Value) -> Option<&str>
    ensures value { option_map (λ s. s.now) result ≡ option_and_then (sized 0 4096) (text_in (codes "note") (view object.now)) }
    ensures fits { IfSome result (λ s. IsNote s.now) }
{
    sized(value::text(object, "note")?, 0, MAX_NOTE)
}

// The field `note`: at most 4,096 bytes.
pub(crate) fn note(object: &Value) -> Result<&str, DecodeFault>
    ensures value { Obeys (ReadField (sized 0 4096) names.Note (view object.now)) (viewed (λ s. s.now) result) }
    ensures fits { IfOk result (λ s. IsNote s.now) }
{
    match note_in(object) {
        Some(note) => Ok(note),
        None => Err(Refused(Field {
            name: FieldName::Note,
        })),
    }
}

// The field `box`: six numbers.
pub(crate) fn bounds(object: &Value) -> Result<Bounds, DecodeFault>
    ensures { Obeys (BoxField (view object.now)) result }
{
    match value::box_bounds(object) {
        Some(bounds) => Ok(bounds),
        None => Err(Refused(Field {
            name: FieldName::Box,
        })),
    }
}

// The field `point`: three numbers, which make a point.
pub(crate) fn point(object: &Value) -> Result<Point, DecodeFault>
    ensures { Obeys (Has (OfField names.Point) (HasPoint (view object.now))) result }
{
    match value::point(object) {
        Some(point) => Ok(point),
        None => Err(Refused(Field {
            name: FieldName::Point,
        })),
    }
}

// The field `auths`: a list of texts.
pub(crate) fn auths(object: &Value) -> Result<&[Value], DecodeFault>
    ensures { Obeys (AuthsField (view object.now)) (viewed (λ v. texts_among (items_view v.now)) result) }
{
    match value::texts(object, "auths") {
        Some(items) => Ok(items),
        None => Err(Refused(Field {
            name: FieldName::Auths,
        })),
    }
}

// The 32 bytes that the digits write.
fn bytes_of(digits: &str) -> Option<[u8; 32]>
    ensures { result ≡ digest_of digits.now }
{
    <[u8; 32] as FromHex>::from_hex(digits).ok()
}

fn digest_in(object: &Value) -> Option<[u8; 32]>
    ensures { result ≡ option_and_then digest_of (text_in (codes "digest") (view object.now)) }
{
    bytes_of(value::text(object, "digest")?)
}

// The field `digest`: 64 hexadecimal digits of either case.
pub(crate) fn digest(object: &Value) -> Result<[u8; 32], DecodeFault>
    ensures { Obeys (ReadField digest_of names.Digest (view object.now)) result }
{
    required(FieldName::Digest, digest_in(object))
}

fn on_in(object: &Value) -> Option<bool>
    ensures { result ≡ option_and_then as_bool (get (codes "on") (view object.now)) }
{
    object.get("on")?.as_bool()
}

// The field `on`: true or false.
pub(crate) fn on(object: &Value) -> Result<bool, DecodeFault>
    ensures { Obeys (ValueField as_bool names.On (view object.now)) result }
{
    required(FieldName::On, on_in(object))
}

// The permission on tables that the field names.
fn table_permission_in(object: &Value) -> Option<TablePermission>
    ensures { result ≡ option_and_then table_permission_named (text_in (codes "permission") (view object.now)) }
{
    TablePermission::named(value::text(object, "permission")?)
}

// The permission on the system that the field names.
fn system_permission_in(object: &Value) -> Option<SystemPermission>
    ensures { result ≡ option_and_then system_permission_named (text_in (codes "permission") (view object.now)) }
{
    SystemPermission::named(value::text(object, "permission")?)
}

// The field `permission`, where it is one on tables.
pub(crate) fn table_permission(object: &Value) -> Result<TablePermission, DecodeFault>
    ensures { Obeys (ReadField table_permission_named names.Permission (view object.now)) result }
{
    required(FieldName::Permission, table_permission_in(object))
}

// The field `permission`, where it is one on the system.
pub(crate) fn system_permission(object: &Value) -> Result<SystemPermission, DecodeFault>
    ensures { Obeys (ReadField system_permission_named names.Permission (view object.now)) result }
{
    required(FieldName::Permission, system_permission_in(object))
}

// The period that a value names.
fn period_of(value: &Value) -> Option<Period>
    ensures { result ≡ as_period (view value.now) }
{
    match value.as_str()? {
        "day" => Some(Period::Day),
        "week" => Some(Period::Week),
        _ => None,
    }
}

fn period_in(object: &Value) -> Option<Period>
    ensures { result ≡ option_and_then as_period (get (codes "period") (view object.now)) }
{
    period_of(object.get("period")?)
}

// The field `period`: day or week.
pub(crate) fn period(object: &Value) -> Result<Period, DecodeFault>
    ensures { Obeys (ValueField as_period names.Period (view object.now)) result }
{
    required(FieldName::Period, period_in(object))
}

fn new_period_in(object: &Value) -> Option<Period>
    ensures { result ≡ period_or_week (get (codes "period") (view object.now)) }
{
    match object.get("period") {
        None | Some(Value::Null) => Some(Period::Week),
        Some(value) => period_of(value),
    }
}

// The field `period` of a new table: day or week; week if it is absent or null.
pub(crate) fn new_period(object: &Value) -> Result<Period, DecodeFault>
    ensures { Obeys (Found names.Period (period_or_week (get (codes "period") (view object.now)))) result }
{
    required(FieldName::Period, new_period_in(object))
}
