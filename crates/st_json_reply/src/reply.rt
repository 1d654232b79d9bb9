//! Replies as text.
ghost use Rattle.std.specs.Prelude.{◌≡◌, ◌∷◌, ◌++◌, [], OnOk, IfOk, codes, true};
ghost use Rattle.serde_json.specs.Data.{boolean, string};
ghost use Rattle.st_json_reply.specs.inner.Adds.{tokens_of, Adds};
ghost use Rattle.st_json_reply.specs.Refusals.{object_of, nat};
ghost use Rattle.st_json_reply.specs.Replies.{reply_data, text_of};

use crate::listing::write_account;
use crate::member::{write_boolean, write_number, write_text};
use crate::refusal::write_refusal;
use crate::rows::write_page;
use crate::written::write_listing;
use json::Writer;
use st_policy::Reply;
use std::alloc::{AllocError, Allocator};

fn write_accepted<A: Allocator>(out: &mut Writer<A>) -> Result<(), AllocError>
    ensures { OnOk result (Adds out.old out.new (tokens_of (object_of ((codes "ok", boolean true) ∷ [])))) }
{
    out.begin_object()?;
    write_boolean(out, "ok", true)?;
    out.end_object()
}

fn write_count<A: Allocator>(out: &mut Writer<A>, count: u64) -> Result<(), AllocError>
    ensures { OnOk result (Adds out.old out.new (tokens_of (object_of ((codes "count", nat count) ∷ [])))) }
{
    out.begin_object()?;
    write_number(out, "count", count)?;
    out.end_object()
}

fn write_normal<A: Allocator>(out: &mut Writer<A>, label: &str) -> Result<(), AllocError>
    ensures { OnOk result (Adds out.old out.new (tokens_of (object_of ((codes "normal", string label.now) ∷ [])))) }
{
    out.begin_object()?;
    write_text(out, "normal", label)?;
    out.end_object()
}

fn write_reply<A: Allocator, B: Allocator>(
    out: &mut Writer<A>,
    reply: &Reply<B>,
) -> Result<(), AllocError>
    ensures { OnOk result (Adds out.old out.new (tokens_of (reply_data reply.now))) }
{
    match reply {
        Reply::Accepted => write_accepted(out),
        Reply::Who(account) => write_account(out, account),
        Reply::Tables(tables) => write_listing(out, "tables", tables.as_slice()),
        Reply::Users(users) => write_listing(out, "users", users.as_slice()),
        Reply::Grants(grants) => write_listing(out, "grants", grants.as_slice()),
        Reply::Normal { label } => write_normal(out, label.text()),
        Reply::Rows(rows) => write_listing(out, "rows", rows.as_slice()),
        Reply::Page { rows, more } => write_page(out, rows.as_slice(), *more),
        Reply::Count(count) => write_count(out, *count),
        Reply::Grid(counts) => write_listing(out, "grid", counts.as_slice()),
        Reply::Plan(plan) => write_listing(out, "parts", plan.parts()),
        Reply::Audit(entries) => write_listing(out, "entries", entries.as_slice()),
        Reply::Refused(refusal) => write_refusal(out, refusal),
    }
}

/// Appends the body of a reply: compact JSON (RFC 8259) whose keys are in byte order. If memory runs
/// out, the list is lost.
pub fn encode_into<A: Allocator, B: Allocator>(
    out: Vec<u8, A>,
    reply: &Reply<B>,
) -> Result<Vec<u8, A>, AllocError>
    ensures { IfOk result (λ text. text.items ≡ out.items ++ text_of reply.now) }
{
    let mut out = Writer::new(out);
    write_reply(&mut out, reply)?;
    Ok(out.into_inner())
}

/// The body of a reply: compact JSON (RFC 8259) whose keys are in byte order.
pub fn encode<A: Allocator, B: Allocator>(
    alloc: A,
    reply: &Reply<B>,
) -> Result<Vec<u8, A>, AllocError>
    ensures { IfOk result (λ text. text.items ≡ text_of reply.now) }
{
    encode_into(Vec::new(alloc), reply)
}
