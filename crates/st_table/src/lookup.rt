//! Looking up rows by their names.
ghost use Rattle.std.specs.Prelude.{◌≡◌, ◌*◌, ◌^◌, ◌<◌, true, false, map, filter, nat_eq, IfSome, IfOk, OnOk, ◌++◌, ◌∷◌, []};
ghost use Rattle.st_key.specs.declared.period.Period.{Period};
ghost use Rattle.st_key.specs.Key.{rank};
ghost use Rattle.st_text.specs.Texts.{in_order};
ghost use Rattle.st_index.specs.inner.Index.{IsAbsent};
ghost use Rattle.st_index.specs.RowViews.{row_of_view};
ghost use Rattle.st_index.specs.inner.Views.{viewed};
ghost use Rattle.st_index.specs.inner.Entries.{EntriesRise, key_end, rank_of, rows_of};
ghost use Rattle.st_scan.specs.Visible.{is_visible};
ghost use Rattle.st_table.specs.inner.Once.{HasEachOnce};
ghost use Rattle.st_table.specs.inner.Found.{IsFound, is_shown_of};
ghost use Rattle.st_table.specs.inner.Places.{IsTied, name_hash, number_at, place_of};

use crate::places::Places;
use st_auth::{Auths, satisfies};
use st_index::{Entry, RowIndex, RowView, RowsView, entries};
use st_key::Key;
use std::alloc::{AllocError, Allocator};

// Whether entries have a row of this key and this name.
fn have_row<A: Allocator + Copy>(held: &[Entry<A>], key: Key, id: &str, label: &str) -> bool
    ensures held { result ≡ true → (period : Period) (lo hi : _) → EntriesRise period lo hi held.now
        → IsAbsent period (rank key) (record { id = id.now; label = label.now }) (rows_of held.now) → ⊥ }
    ensures absent { result ≡ false → (period : Period) (lo hi : _) → EntriesRise period lo hi held.now
        → IsAbsent period (rank key) (record { id = id.now; label = label.now }) (rows_of held.now) }
{
    let Ok(at) = entries::find(held, key) else {
        return false;
    };
    let entry = &held[at];
    entry.has(id, label)
}

// Whether a row of this key and this name is held.
fn has_row<I: RowIndex>(index: &I, key: Key, id: &str, label: &str) -> bool
    requires { rank key < key_end (I.period_of index.now) }
    ensures held { result ≡ true
        → IsAbsent (I.period_of index.now) (rank key) (record { id = id.now; label = label.now }) (I.content index.now) → ⊥ }
    ensures absent { result ≡ false
        → IsAbsent (I.period_of index.now) (rank key) (record { id = id.now; label = label.now }) (I.content index.now) }
{
    let leaf = index.leaf_at(key);
    have_row(leaf.entries, key, id, label)
}

// The key of this rank.
pub(crate) fn key_at(place: u128) -> Key
    requires { place < 229376 * 2 ^ 63 }
    ensures { rank result ≡ place }
{
    Key::at((place >> 63) as u32, (place % (1 << 63)) as u64)
}

// The key of the row of a name, which has this hash. It takes no memory.
pub(crate) fn find<I: RowIndex>(
    index: &I,
    places: &Places<I::Alloc>,
    hash: u64,
    id: &str,
    label: &str,
) -> Option<Key>
    requires hash { hash ≡ name_hash places.now.seed id.now label.now }
    requires hash_in_range { hash < 2 ^ 47 }
    requires tied { IsTied places.now.seed (I.period_of index.now) places.now.numbers (I.content index.now) }
    requires once { HasEachOnce (I.content index.now) }
    ensures found { IsFound (I.period_of index.now) result (record { id = id.now; label = label.now }) (I.content index.now) }
    ensures held { IfSome result (λ key. 0 < number_at places.now.numbers (place_of hash (rank key))) }
{
    let mut from = 0;
    'keys: while let Some((found, _)) = places.next(hash, from) {
        let key = key_at(found);
        if has_row(index, key, id, label) {
            return Some(key);
        }
        from = found + 1;
    }
    None
}

// The rows of a key, by their names.
fn rows_at<'a, I: RowIndex>(index: &'a I, key: Key) -> RowsView<'a, I::Alloc>
    requires { rank key < key_end (I.period_of index.now) }
    ensures { viewed result ≡ filter (λ row. nat_eq (rank_of (I.period_of index.now) row) (rank key)) (I.content index.now) }
{
    let leaf = index.leaf_at(key);
    let Ok(at) = entries::find(leaf.entries, key) else {
        return RowsView::Many(&[]);
    };
    let entry = &leaf.entries[at];
    entry.rows()
}

// Whether a row has a label that the authorizations satisfy.
fn is_shown<A: Allocator + Copy, B: Allocator>(row: RowView<'_, A>, auths: &Auths<B>) -> bool
    ensures { result ≡ is_visible auths.now (row_of_view row.entry) }
{
    satisfies(row.label(), auths)
}

// Appends the rows of an id that the authorizations satisfy.
fn push_shown<'a, A: Allocator + Copy, B: Allocator>(
    rows: &mut Vec<RowView<'a, A>, A>,
    more: RowsView<'a, A>,
    id: &str,
    auths: &Auths<B>,
) -> Result<(), AllocError>
    ensures { OnOk result (map row_of_view rows.new.items
        ≡ map row_of_view rows.old.items ++ filter (is_shown_of id.now auths.now) (viewed more.entry)) }
{
    let mut left = more;
    'rows: while let Some((row, rest)) = left.split_first() {
        if row.id().is(id) && is_shown(row, auths) {
            rows.push(row)?;
        }
        left = rest;
    }
    Ok(())
}

// The rows of an id that the authorizations satisfy, in scan order.
fn shown<'a, I: RowIndex, B: Allocator>(
    index: &'a I,
    places: &Places<I::Alloc>,
    id: &str,
    auths: &Auths<B>,
) -> Result<Vec<RowView<'a, I::Alloc>, I::Alloc>, AllocError>
    requires { IsTied places.now.seed (I.period_of index.now) places.now.numbers (I.content index.now) }
    ensures { IfOk result (λ rows. map row_of_view rows.items
        ≡ filter (is_shown_of id.now auths.now) (I.content index.now)) }
{
    let _ = index.period();
    let hash = places.seed().hash(id);
    let keys = places.keys(hash)?;
    let mut rows = Vec::new(places.alloc());
    let mut low = 0;
    'ranks: while let Some((found, _)) = keys.next(0, low) {
        push_shown(&mut rows, rows_at(index, key_at(found)), id, auths)?;
        low = found + 1;
    }
    Ok(rows)
}

// Sorts rows by the bytes of their labels.
fn sort_by_label<A: Allocator + Copy>(rows: &mut Vec<RowView<'_, A>, A>) -> Result<(), AllocError>
    ensures { OnOk result (map row_of_view rows.new.items
        ≡ in_order (λ row. row.label ∷ []) (map row_of_view rows.old.items)) }
{
    rows.sort_by(|one, other| one.label().text().cmp(other.label().text()))?;
    Ok(())
}

// The rows of an id that the authorizations satisfy, by the bytes of their labels.
pub(crate) fn rows_by_label<'a, I: RowIndex, B: Allocator>(
    index: &'a I,
    places: &Places<I::Alloc>,
    id: &str,
    auths: &Auths<B>,
) -> Result<Vec<RowView<'a, I::Alloc>, I::Alloc>, AllocError>
    requires { IsTied places.now.seed (I.period_of index.now) places.now.numbers (I.content index.now) }
    ensures { IfOk result (λ rows. map row_of_view rows.items
        ≡ in_order (λ row. row.label ∷ []) (filter (is_shown_of id.now auths.now) (I.content index.now))) }
{
    let mut rows = shown(index, places, id, auths)?;
    sort_by_label(&mut rows)?;
    Ok(rows)
}
