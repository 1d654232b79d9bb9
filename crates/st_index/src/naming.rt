//! Names of rows, and where they stand.
ghost use Rattle.std.specs.Prelude.{◌≡◌, ℕ, List, [], ◌∷◌, length};
ghost use Rattle.std.specs.List.Sorted.{IsSearchInRange, IsBinarySearchResult};
ghost use Rattle.st_key.specs.declared.point.Point.{Point};
ghost use Rattle.st_index.specs.declared.row.Row.{Row};
ghost use Rattle.st_index.specs.inner.Entries.{name_of, name_cmp};

use crate::id::Id;
use crate::row::Row;
use st_label::Label;
use std::alloc::Allocator;
use std::cmp::Ordering;

// The order of a row's name and that of an id and a label: by the id's bytes, then by the label's.
pub(crate) fn cmp_names<A: Allocator + Copy>(
    row_id: &Id<A>,
    row_label: &Label<A>,
    id: &str,
    label: &str,
) -> Ordering
    ensures { result ≡ name_cmp (record { id = row_id.now; label = row_label.now }) (record { id = id.now; label = label.now }) }
{
    match row_id.as_str().cmp(id) {
        Ordering::Equal => row_label.text().cmp(label),
        order => order,
    }
}

// The index of the row of this name, or the index where it would stand.
pub(crate) fn find_name<A: Allocator + Copy>(
    rows: &[Row<A>],
    id: &str,
    label: &str,
) -> Result<usize, usize>
    ensures bound { IsSearchInRange result (length rows.now) }
    ensures place { IsBinarySearchResult (λ (r : Row A). name_cmp (name_of r) (record { id = id.now; label = label.now })) rows.now result }
{
    rows.binary_search_by(
        |row: &Row<A>| -> Ordering
            ensures { result ≡ name_cmp (name_of row.now) (record { id = id.entry.now; label = label.entry.now }) }
        { row.cmp_name(id, label) },
    )
}

// The index of a row alone if it has this name, or the index beside it where a row of this name would stand.
pub(crate) fn find_beside<A: Allocator + Copy>(
    row_id: &Id<A>,
    row_label: &Label<A>,
    id: &str,
    label: &str,
) -> Result<usize, usize>
    ensures bound { IsSearchInRange result 1 }
    ensures place { (point : Point) (note : List ℕ)
        → IsBinarySearchResult (λ (r : Row A). name_cmp (name_of r) (record { id = id.now; label = label.now }))
        (record { id = row_id.now; point = point; label = row_label.now; note = note } ∷ []) result }
{
    match cmp_names(row_id, row_label, id, label) {
        Ordering::Less => Err(1),
        Ordering::Equal => Ok(0),
        Ordering::Greater => Err(0),
    }
}
