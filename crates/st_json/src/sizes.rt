//! The fields that bound an answer.
ghost use Rattle.std.specs.Prelude.{◌≡◌, codes};
ghost use Rattle.serde_json.specs.View.{view};
ghost use Rattle.st_policy.specs.Refusals.{field_text};
ghost use Rattle.st_policy.specs.declared.field_name.FieldName.TheVariants as names;
ghost use Rattle.st_json.specs.Fields.{number_in};
ghost use Rattle.st_json.specs.Needs.{Obeys};
ghost use Rattle.st_json.specs.Rules.{NumberField};

use crate::fault::DecodeFault;
use crate::field::required;
use crate::value;
use serde_json::Value;
use st_policy::{Budget, FieldName, Limit, Side};

fn limit_in(object: &Value) -> Option<Limit>
    ensures { result ≡ number_in 1 1000 (codes "limit") (view object.now) }
{
    Limit::new(value::number(object, "limit")?)
}

// The field `limit`: 1 to 1,000 rows.
pub(crate) fn limit(object: &Value) -> Result<Limit, DecodeFault>
    ensures { Obeys (NumberField 1 1000 names.Limit (view object.now)) result }
{
    required(FieldName::Limit, limit_in(object))
}

fn side_in(object: &Value, name: FieldName) -> Option<Side>
    ensures { result ≡ number_in 1 32 (field_text name) (view object.now) }
{
    Side::new(value::number(object, name.name())?)
}

// A side of a grid: 1 to 32 cells.
pub(crate) fn side(object: &Value, name: FieldName) -> Result<Side, DecodeFault>
    ensures { Obeys (NumberField 1 32 name (view object.now)) result }
{
    required(name, side_in(object, name))
}

fn budget_in(object: &Value) -> Option<Budget>
    ensures { result ≡ number_in 1 64 (codes "budget") (view object.now) }
{
    Budget::new(value::number(object, "budget")?)
}

// The field `budget`: 1 to 64 ranges.
pub(crate) fn budget(object: &Value) -> Result<Budget, DecodeFault>
    ensures { Obeys (NumberField 1 64 names.Budget (view object.now)) result }
{
    required(FieldName::Budget, budget_in(object))
}
