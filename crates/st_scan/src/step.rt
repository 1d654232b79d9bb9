//! The steps of a walk.
ghost use Rattle.std.specs.Prelude.{◌≡◌, ◌↔◌, ℕ, ◌<◌, ◌^◌, [], filter, length, IsTrue, IfSome, IfNone};
ghost use Rattle.std.specs.List.{All};
ghost use Rattle.st_key.specs.declared.key.Key.{Key};
ghost use Rattle.st_key.specs.declared.period.Period.{Period};
ghost use Rattle.st_key.specs.Key.{rank};
ghost use Rattle.st_box.specs.Query.{HasKey};
ghost use Rattle.st_index.specs.inner.Index.{Follow};
ghost use Rattle.st_index.specs.inner.Views.{viewed};
ghost use Rattle.st_index.specs.inner.Entries.{IsEntry, EntriesRise, key_end, rows_of};
ghost use Rattle.st_scan.specs.inner.Rows.{has_row};
ghost use Rattle.st_scan.specs.inner.Steps.{AreExact, IsNextEntry, IsOver, IsOwnExact, IsPosition, Opens, SkipsTo, Steps, left_of};
ghost use Rattle.st_scan.specs.inner.Steps.{rank_or_end};

use crate::exact::is_exact;
use crate::own_plan::OwnPlan;
use crate::part_ranges::PartRanges;
use crate::position::Position;
use st_bigmin::first_by;
use st_box::KeyTest;
use st_index::{Entry, RowIndex, RowsView, entries};
use st_key::Key;
use std::alloc::Allocator;

// The rows of an entry.
pub(crate) fn rows_of_entry<A: Allocator + Copy>(entry: &Entry<A>) -> RowsView<'_, A>
    ensures { viewed result ≡ entry.now.rows }
{
    entry.rows()
}

// The key of an entry.
pub(crate) fn key_of<A: Allocator + Copy>(entry: &Entry<A>) -> Key
    ensures { rank result ≡ entry.now.at }
{
    entry.key()
}

// Whether the key is that of a point inside the query. A key of an exact range is not tested.
fn has_key<A: Allocator + Copy>(
    test: &KeyTest,
    parts: &[PartRanges],
    own: &OwnPlan<A>,
    key: Key,
) -> bool
    requires exact { AreExact test.now.period test.now.query parts.now }
    requires own { IsOwnExact test.now.period test.now.query own.now }
    ensures { IsTrue result ↔ HasKey test.now.query test.now.period key }
{
    is_exact(parts, key) || own.is_exact(key) || test.has_key(key)
}

// The rows of the first entry that is inside the query, and the entries after it.
pub(crate) fn next_entry<'a, A: Allocator + Copy>(
    test: &KeyTest,
    parts: &[PartRanges],
    own: &OwnPlan<A>,
    entries: &'a [Entry<A>],
) -> Option<(RowsView<'a, A>, &'a [Entry<A>])>
    requires exact { AreExact test.now.period test.now.query parts.now }
    requires own { IsOwnExact test.now.period test.now.query own.now }
    requires keyed { All (IsEntry test.now.period) entries.now }
    ensures some { IfSome result (λ found. IsNextEntry test.now.query entries.now (viewed found.0) found.1.now) }
    ensures none { IfNone result (filter (has_row test.now.query) (rows_of entries.now) ≡ []) }
{
    let mut ahead = entries;
    while let Some((entry, rest)) = ahead.split_first() {
        ahead = rest;
        if has_key(test, parts, own, key_of(entry)) {
            return Some((rows_of_entry(entry), rest));
        }
    }
    None
}

// The entries that remain after those before a key. They are looked at one by one, which takes less time than a search by halves.
fn skip_to<A: Allocator + Copy>(entries: &[Entry<A>], from: Key) -> &[Entry<A>]
    ensures { (period : Period) (lo hi : ℕ) → EntriesRise period lo hi entries.now → SkipsTo (rank from) entries.now result.now }
{
    let before = match entries::find(entries, from) {
        Ok(place) => place,
        Err(place) => place,
    };
    &entries[before..]
}

// Those of the entries of a region, which begins at its first key, that do not come before a key.
fn entries_from<A: Allocator + Copy>(entries: &[Entry<A>], first: Key, from: Key) -> &[Entry<A>]
    ensures { (period : Period) (hi : ℕ) → EntriesRise period (rank first) hi entries.now → SkipsTo (rank from) entries.now result.now }
{
    if first.is_before(from) {
        skip_to(entries, from)
    } else {
        entries
    }
}

// The entries of the first region from a key on that meets the query, and the first key after it.
pub(crate) fn open_next<'a, I: RowIndex>(
    index: &'a I,
    test: &KeyTest,
    from: Key,
) -> Option<(&'a [Entry<I::Alloc>], Option<Key>)>
    requires { test.now.period ≡ I.period_of index.now }
    ensures some { IfSome result (λ opened. Opens test.now.period test.now.query (I.content index.now) (I.regions index.now) (rank from)
        opened.0.now (rank_or_end test.now.period opened.1)) }
    ensures none { IfNone result ((k : Key) → HasKey test.now.query test.now.period k → rank k < rank from) }
{
    let Some(key) = first_by(test, from) else {
        return None;
    };
    let leaf = index.leaf_at(key);
    let entries = entries_from(leaf.entries, leaf.first, key);
    Some((entries, leaf.last.after(test.period)))
}

// The position in the next region that meets the query.
pub(crate) fn enter_region<'a, I: RowIndex>(
    index: &'a I,
    test: &KeyTest,
    at: Position<'a, I::Alloc>,
) -> Option<Position<'a, I::Alloc>>
    requires period { test.now.period ≡ I.period_of index.now }
    requires at { IsPosition test.now.period test.now.query (I.regions index.now) at }
    requires rows { viewed at.rows ≡ [] }
    requires entries { filter (has_row test.now.query) (rows_of at.entries.now) ≡ [] }
    requires few { length (I.regions index.now) < 2 ^ 64 }
    requires follow { Follow 0 (key_end test.now.period) (I.regions index.now) }
    ensures some { IfSome result (Steps test.now.period test.now.query (I.content index.now) (I.regions index.now) at.entry) }
    ensures none { IfNone result (IsOver test.now.period test.now.query (I.content index.now) (I.regions index.now) at.entry) }
{
    let Some(from) = at.next else {
        return None;
    };
    let Some((entries, next)) = open_next(index, test, from) else {
        return None;
    };
    Some(Position {
        entries,
        next,
        opened: at.opened + 1,
        ..at
    })
}

// Goes on to the next rows of the query, where those of the last entry are all given. There are no rows where none is left.
pub(crate) fn forward<'a, I: RowIndex>(
    index: &'a I,
    test: &KeyTest,
    parts: &[PartRanges],
    own: &OwnPlan<I::Alloc>,
    at: &mut Position<'a, I::Alloc>,
)
    requires period { test.now.period ≡ I.period_of index.now }
    requires exact { AreExact test.now.period test.now.query parts.now }
    requires own { IsOwnExact test.now.period test.now.query own.now }
    requires at { IsPosition test.now.period test.now.query (I.regions index.now) at.old }
    requires few { length (I.regions index.now) < 2 ^ 64 }
    requires follow { Follow 0 (key_end test.now.period) (I.regions index.now) }
    ensures at { IsPosition test.now.period test.now.query (I.regions index.now) at.new }
    ensures start { at.new.start ≡ at.old.start }
    ensures left { left_of test.now.period test.now.query (I.content index.now) at.new
        ≡ left_of test.now.period test.now.query (I.content index.now) at.old }
    ensures over { viewed at.new.rows ≡ [] → IsOver test.now.period test.now.query (I.content index.now) (I.regions index.now) at.new }
{
    'regions: while at.rows.is_empty() {
        if let Some((rows, entries)) = next_entry(test, parts, own, at.entries) {
            at.rows = rows;
            at.entries = entries;
            return;
        }
        let Some(next) = enter_region(index, test, *at) else {
            return;
        };
        *at = next;
    }
}
