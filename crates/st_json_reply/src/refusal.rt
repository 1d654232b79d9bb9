//! The status and the body of a refusal.
ghost use Rattle.std.specs.Prelude.{◌≡◌, ◌∷◌, [], OnOk, codes};
ghost use Rattle.serde_json.specs.Data.{string};
ghost use Rattle.st_policy.specs.declared.refusal.Refusal.TheVariants.{Denied as OfDenial};
ghost use Rattle.st_json_reply.specs.inner.Adds.{tokens_of, Adds};
ghost use Rattle.st_json_reply.specs.Refusals.{refusal_status, object_of, nat, refusal_data, denial_data};

use crate::member::{write_number, write_text};
use http::StatusCode;
use json::Writer;
use st_policy::{Denial, Refusal};
use std::alloc::{AllocError, Allocator};

fn denial_status(denial: &Denial) -> StatusCode
    ensures { result ≡ refusal_status (OfDenial denial.now) }
{
    match denial {
        Denial::Token => StatusCode::UNAUTHORIZED,
        Denial::Permission { .. }
        | Denial::NamespacePermission { .. }
        | Denial::Authorization { .. }
        | Denial::Constraint { .. }
        | Denial::OwnSelf => StatusCode::FORBIDDEN,
    }
}

/// The status code of the reply to a refused request (RFC 9110, "Client Error 4xx").
pub fn status(refusal: &Refusal) -> StatusCode
    ensures { result ≡ refusal_status refusal.now }
{
    match refusal {
        Refusal::Json
        | Refusal::Field { .. }
        | Refusal::BadBox
        | Refusal::BadLabel { .. }
        | Refusal::BadName { .. } => StatusCode::BAD_REQUEST,
        Refusal::Denied(denial) => denial_status(denial),
        Refusal::NoTable { .. } | Refusal::NoUser { .. } => StatusCode::NOT_FOUND,
        Refusal::TableExists { .. } | Refusal::UserExists { .. } => StatusCode::CONFLICT,
    }
}

// An object with an error alone.
fn write_error<A: Allocator>(out: &mut Writer<A>, error: &str) -> Result<(), AllocError>
    ensures { OnOk result (Adds out.old out.new (tokens_of (object_of ((codes "error", string error.now) ∷ [])))) }
{
    out.begin_object()?;
    write_text(out, "error", error)?;
    out.end_object()
}

// An object with two texts.
fn write_two<A: Allocator>(
    out: &mut Writer<A>,
    first: (&str, &str),
    second: (&str, &str),
) -> Result<(), AllocError>
    ensures { OnOk result (Adds out.old out.new
        (tokens_of (object_of ((first.entry.0.now, string first.entry.1.now) ∷ (second.entry.0.now, string second.entry.1.now) ∷ [])))) }
{
    out.begin_object()?;
    write_text(out, first.0, first.1)?;
    write_text(out, second.0, second.1)?;
    out.end_object()
}

// An object with three texts.
fn write_three<A: Allocator>(
    out: &mut Writer<A>,
    first: (&str, &str),
    second: (&str, &str),
    third: (&str, &str),
) -> Result<(), AllocError>
    ensures { OnOk result (Adds out.old out.new
        (tokens_of (object_of ((first.entry.0.now, string first.entry.1.now) ∷ (second.entry.0.now, string second.entry.1.now)
        ∷ (third.entry.0.now, string third.entry.1.now) ∷ [])))) }
{
    out.begin_object()?;
    write_text(out, first.0, first.1)?;
    write_text(out, second.0, second.1)?;
    write_text(out, third.0, third.1)?;
    out.end_object()
}

// An object with the place at which a text is not a label.
fn write_bad_label<A: Allocator>(out: &mut Writer<A>, at: u64) -> Result<(), AllocError>
    ensures { OnOk result (Adds out.old out.new
        (tokens_of (object_of ((codes "at", nat at) ∷ (codes "error", string (codes "label")) ∷ [])))) }
{
    out.begin_object()?;
    write_number(out, "at", at)?;
    write_text(out, "error", "label")?;
    out.end_object()
}

fn write_denial<A: Allocator>(out: &mut Writer<A>, denial: &Denial) -> Result<(), AllocError>
    ensures { OnOk result (Adds out.old out.new (tokens_of (denial_data denial.now))) }
{
    match denial {
        Denial::Token => write_error(out, "token"),
        Denial::Permission { name, table: None } => write_two(
            out,
            ("error", "permission"),
            ("permission", name.name()),
        ),
        Denial::Permission {
            name,
            table: Some(table),
        } => write_three(
            out,
            ("error", "permission"),
            ("permission", name.name()),
            ("table", table.as_str()),
        ),
        Denial::NamespacePermission { name, namespace } => write_three(
            out,
            ("error", "permission"),
            ("namespace", namespace.as_str()),
            ("permission", name.name()),
        ),
        Denial::Authorization { name } => write_two(
            out,
            ("authorization", name.as_str()),
            ("error", "authorization"),
        ),
        Denial::Constraint { label } => {
            write_two(out, ("error", "constraint"), ("label", label.as_str()))
        }
        Denial::OwnSelf => write_error(out, "self"),
    }
}

// Writes the body of the reply to a refused request.
pub(crate) fn write_refusal<A: Allocator>(
    out: &mut Writer<A>,
    refusal: &Refusal,
) -> Result<(), AllocError>
    ensures { OnOk result (Adds out.old out.new (tokens_of (refusal_data refusal.now))) }
{
    match refusal {
        Refusal::Json => write_error(out, "json"),
        Refusal::Field { name } => write_two(out, ("error", "field"), ("field", name.name())),
        Refusal::BadBox => write_error(out, "box"),
        Refusal::BadLabel { at } => write_bad_label(out, *at),
        Refusal::BadName { field } => write_two(out, ("error", "name"), ("field", field.name())),
        Refusal::Denied(denial) => write_denial(out, denial),
        Refusal::NoTable { table } => {
            write_two(out, ("error", "table"), ("table", table.as_str()))
        }
        Refusal::NoUser { user } => write_two(out, ("error", "user"), ("user", user.as_str())),
        Refusal::TableExists { table } => {
            write_two(out, ("error", "table-exists"), ("table", table.as_str()))
        }
        Refusal::UserExists { user } => {
            write_two(out, ("error", "user-exists"), ("user", user.as_str()))
        }
    }
}
