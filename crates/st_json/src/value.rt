//! Values of a body's fields.
ghost use Rattle.std.specs.Prelude.{◌≡◌, ◌∷◌, [], is_some, option_map, option_and_then, map, Some, IfOk, IfSome, IfNone};
ghost use Rattle.std.specs.List.{list_all};
ghost use Rattle.serde_json.specs.Find.{get, as_str};
ghost use Rattle.serde_json.specs.View.{view, items_view};
ghost use Rattle.st_key.specs.declared.point.Point.{Point};
ghost use Rattle.st_json.specs.Fields.{text_in, as_natural, list_in, six_numbers, HasBox, HasPoint};
ghost use Rattle.st_json.specs.declared.value.Bounds.{Bounds};
ghost use Rattle.st_json.specs.inner.Parts.{items_in, numbers_of, Picks, texts_among};

use serde_json::Value;
use st_key::Point;
use std::alloc::{AllocError, Allocator};

/// The six numbers of a box, which may or may not make a query.
#[derive(Clone, Copy)]
pub struct Bounds {
    pub x0: u64,
    pub x1: u64,
    pub y0: u64,
    pub y1: u64,
    pub t0: u64,
    pub t1: u64,
}

// The text of this name in an object.
pub(crate) fn text<'a>(object: &'a Value, name: &str) -> Option<&'a str>
    ensures { option_map (λ s. s.now) result ≡ text_in name.now (view object.now) }
{
    object.get(name).and_then(Value::as_str)
}

// The number of this name in an object.
pub(crate) fn number(object: &Value, name: &str) -> Option<u64>
    ensures { result ≡ option_and_then as_natural (get name.now (view object.now)) }
{
    object.get(name).and_then(Value::as_u64)
}

fn list<'a>(object: &'a Value, name: &str) -> Option<&'a Vec<Value>>
    ensures { option_map (λ v. items_view v.now.items) result ≡ items_in name.now (view object.now) }
{
    object.get(name).and_then(Value::as_array)
}

fn are_texts(items: &[Value]) -> bool
    ensures { result ≡ list_all (λ v. is_some (as_str (view v))) items.now }
{
    items.iter().all(|item| item.is_string())
}

// The items of a list of texts.
pub(crate) fn texts<'a>(object: &'a Value, name: &str) -> Option<&'a [Value]>
    ensures { option_map (λ v. texts_among (items_view v.now)) result ≡ list_in as_str name.now (view object.now) }
{
    let items = list(object, name)?.as_slice();
    let all = are_texts(items);
    if all { Some(items) } else { None }
}

// The texts among the items.
pub(crate) fn texts_among<'a, A: Allocator + Copy>(
    alloc: A,
    items: &'a [Value],
) -> Result<Vec<&'a str, A>, AllocError>
    ensures { IfOk result (λ v. map (λ s. s.now) v.items ≡ texts_among (items_view items.now)) }
{
    let mut texts = Vec::new(alloc);
    for item in items {
        let Some(text) = item.as_str() else {
            continue;
        };
        texts.push(text)?;
    }
    Ok(texts)
}

// The six numbers of a list.
fn six(items: &[Value]) -> Option<Bounds>
    ensures some { IfSome result (λ b. numbers_of (items_view items.now) ≡ Some (six_numbers b)) }
    ensures none { IfNone result ((b : Bounds) → numbers_of (items_view items.now) ≡ Some (six_numbers b) → ⊥) }
{
    let [x0, x1, y0, y1, t0, t1] = items else {
        return None;
    };
    Some(Bounds {
        x0: x0.as_u64()?,
        x1: x1.as_u64()?,
        y0: y0.as_u64()?,
        y1: y1.as_u64()?,
        t0: t0.as_u64()?,
        t1: t1.as_u64()?,
    })
}

// The six numbers of the field `box`.
pub(crate) fn box_bounds(object: &Value) -> Option<Bounds>
    ensures { Picks (HasBox (view object.now)) result }
{
    six(list(object, "box")?)
}

// The point at three numbers.
fn point_at(x: u64, y: u64, t: u64) -> Option<Point>
    ensures { Picks (λ p. (p.x ≡ x) × (p.y ≡ y) × (p.t ≡ t)) result }
{
    Point::new(x, y, t).ok()
}

// The point that three numbers in a list make.
fn three(items: &[Value]) -> Option<Point>
    ensures some { IfSome result (λ p. numbers_of (items_view items.now) ≡ Some (p.x ∷ p.y ∷ p.t ∷ [])) }
    ensures none { IfNone result ((p : Point) → numbers_of (items_view items.now) ≡ Some (p.x ∷ p.y ∷ p.t ∷ []) → ⊥) }
{
    let [x, y, t] = items else {
        return None;
    };
    point_at(x.as_u64()?, y.as_u64()?, t.as_u64()?)
}

// The point of the field `point`.
pub(crate) fn point(object: &Value) -> Option<Point>
    ensures { Picks (HasPoint (view object.now)) result }
{
    three(list(object, "point")?)
}
