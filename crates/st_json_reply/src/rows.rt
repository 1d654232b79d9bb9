//! Rows, and pages of them, as JSON.
ghost use Rattle.std.specs.Prelude.{◌∷◌, OnOk, codes, option_copied};
ghost use Rattle.std.specs.Option.{option_map_or};
ghost use Rattle.json.specs.Token as token;
ghost use Rattle.serde_json.specs.Data.{null};
ghost use Rattle.st_json_reply.specs.inner.Adds.{tokens_of, Adds};
ghost use Rattle.st_json_reply.specs.Replies.{point_data, row_data, place_data, next_data, page_data};

use crate::member::write_text;
use crate::written::{WriteJson, write_list};
use json::Writer;
use st_index::Row;
use st_key::Point;
use std::alloc::{AllocError, Allocator};

// A point under its key.
fn write_point<A: Allocator>(out: &mut Writer<A>, point: &Point) -> Result<(), AllocError>
    ensures { OnOk result (Adds out.old out.new (token.key (codes "point") ∷ tokens_of (point_data point.now))) }
{
    let numbers = [u64::from(point.x()), u64::from(point.y()), point.t()];
    write_list(out, "point", &numbers)
}

impl<B: Allocator> WriteJson for Row<B> {
    ghost written = { row_data };

    fn write_json<A: Allocator>(&self, out: &mut Writer<A>) -> Result<(), AllocError> {
        out.begin_object()?;
        write_text(out, "id", self.id.as_str())?;
        write_text(out, "label", self.label.text())?;
        write_text(out, "note", self.note.as_str())?;
        write_point(out, &self.point)?;
        out.end_object()
    }
}

// The place of a row.
fn write_place<A: Allocator, B: Allocator>(
    out: &mut Writer<A>,
    row: &Row<B>,
) -> Result<(), AllocError>
    ensures { OnOk result (Adds out.old out.new (tokens_of (place_data row.now))) }
{
    out.begin_object()?;
    write_text(out, "id", row.id.as_str())?;
    write_text(out, "label", row.label.text())?;
    write_point(out, &row.point)?;
    out.end_object()
}

fn write_place_or_null<A: Allocator, B: Allocator>(
    out: &mut Writer<A>,
    row: Option<&Row<B>>,
) -> Result<(), AllocError>
    ensures { OnOk result (Adds out.old out.new (tokens_of (option_map_or place_data (option_copied row.entry) null))) }
{
    match row {
        Some(row) => write_place(out, row),
        None => out.null(),
    }
}

// The place after which the next page begins, under its key.
fn write_next<A: Allocator, B: Allocator>(
    out: &mut Writer<A>,
    rows: &[Row<B>],
    more: bool,
) -> Result<(), AllocError>
    ensures { OnOk result (Adds out.old out.new (token.key (codes "next") ∷ tokens_of (next_data rows.now more))) }
{
    out.key("next")?;
    if more {
        write_place_or_null(out, rows.last())
    } else {
        out.null()
    }
}

// A page of a scan.
pub(crate) fn write_page<A: Allocator, B: Allocator>(
    out: &mut Writer<A>,
    rows: &[Row<B>],
    more: bool,
) -> Result<(), AllocError>
    ensures { OnOk result (Adds out.old out.new (tokens_of (page_data rows.now more))) }
{
    out.begin_object()?;
    write_next(out, rows, more)?;
    write_list(out, "rows", rows)?;
    out.end_object()
}
