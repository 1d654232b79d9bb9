//! An index of one region, which keeps its entries in one list.
ghost use Rattle.std.specs.Prelude.{◌≡◌, ◌-◌, [], ◌∷◌};
ghost use Rattle.st_index.specs.inner.Entries.{key_end, rows_of};
ghost use Rattle.st_index.specs.inner.Index.{region};

use crate::entries::Change;
use crate::entry::Entry;
use crate::fields::Fields;
use crate::index::{KeyRange, Leaf, RowIndex};
use crate::judge::Judge;
use crate::row::Row;
use crate::{counting, entries, field_counting, order, room};
use st_box::Query;
use st_key::{Key, Period};
use std::alloc::{AllocError, Allocator, Global};
use std::marker::Model;

/// An index of one region. Looking up is logarithmic, putting in and taking out are linear.
#[derive(Drop)]
pub struct ListIndex<A: Allocator = Global> {
    period: Period,
    entries: Vec<Entry<A>, A>,
    len: u64,
}

impl<A: Allocator> Model for ListIndex<A> {
    ghost use Rattle.std.specs.Prelude.{◌≡◌, ◌<◌, ◌^◌, length};
    ghost use Rattle.st_index.specs.inner.Entries.{EntriesRise, key_end, rows_of};
    ghost use Rattle.st_index.specs.inner.ListValue.{ListValue};

    ghost Value = { ListValue A };

    ghost view = { λ s. record { period = s.period; entries = s.entries.items } };

    ghost invariant = { λ s. EntriesRise s.period 0 (key_end s.period) s.entries.items × (s.len ≡ length (rows_of s.entries.items))
        × (s.len < 2 ^ 64) };
}

impl<A: Allocator + Copy> ListIndex<A> {
    /// An index of no rows, which takes no memory.
    pub fn new(alloc: A, period: Period) -> Self
        ensures { result ≡ record { period = period; entries = [] } }
    {
        ListIndex {
            period,
            entries: Vec::new(alloc),
            len: 0,
        }
    }
}

/// The memory that one more row takes in a list.
#[derive(Drop)]
pub struct ListSpare<A: Allocator = Global> {
    entries: Vec<Entry<A>, A>,
    rows: Vec<Row<A>, A>,
}

impl<A: Allocator + Copy> RowIndex for ListIndex<A> {
    type Alloc = A;

    type Row = Row<A>;

    type Spare = ListSpare<A>;

    ghost use Rattle.st_index.specs.inner.Lists.{HasListRoom};

    ghost period_of = { λ s. s.period };

    ghost content = { λ s. rows_of s.entries };

    ghost regions = { λ s. region 0 (key_end s.period - 1) ∷ [] };

    ghost has_room = { HasListRoom };

    fn period(&self) -> Period {
        self.period
    }

    fn copy(&self) -> Result<ListIndex<A>, AllocError> {
        let alloc = *self.entries.allocator();
        Ok(ListIndex {
            period: self.period,
            entries: entries::copies(alloc, &self.entries, self.entries.len())?,
            len: self.len,
        })
    }

    fn leaf_at(&self, _key: Key) -> Leaf<'_, A> {
        Leaf {
            entries: self.entries.as_slice(),
            first: Key::FIRST,
            last: Key::last(self.period),
        }
    }

    fn count<J: Judge<A>>(&self, query: &Query, judge: &mut J) -> u64 {
        counting::count(&self.entries, query, judge)
    }

    fn count_fields<J: Judge<A>, F: Fields>(&self, judge: &mut J, fields: &F, counts: &mut [u64]) {
        field_counting::count(&self.entries, judge, fields, counts);
    }

    fn count_fields_at<J: Judge<A>, F: Fields>(
        &self,
        from: Key,
        _key: Key,
        judge: &mut J,
        fields: &F,
        counts: &mut [u64],
    ) -> Option<KeyRange> {
        if order::is_before(Key::FIRST, from) {
            return None;
        }
        field_counting::count(&self.entries, judge, fields, counts);
        let (first, last) = (Key::FIRST, Key::last(self.period));
        Some(KeyRange { first, last })
    }

    fn prepare(&self, row: &Row<A>) -> Result<ListSpare<A>, AllocError> {
        if self.len == u64::MAX {
            return Err(AllocError);
        }
        let alloc = *self.entries.allocator();
        let held = entries::count_at(&self.entries, row.key(self.period));
        let rows = entries::list_for_more(alloc, held)?;
        let entries = Vec::with_capacity(alloc, self.entries.len() + 1)?;
        Ok(ListSpare { entries, rows })
    }

    fn insert(&mut self, row: Row<A>, spare: ListSpare<A>) {
        let ListSpare { mut entries, rows } = spare;
        room::take_over(&mut entries, &mut self.entries);
        entries::put(&mut entries, self.period, row, rows);
        self.entries = entries;
        self.len += 1;
    }

    fn remove(&mut self, key: Key, id: &str, label: &str) -> Option<Row<A>> {
        let mut change = Change::Altered(0);
        let row = entries::take(&mut self.entries, key, id, label, &mut change)?;
        self.len -= 1;
        Some(row)
    }

    fn replace(&mut self, row: Row<A>) -> Row<A> {
        let mut change = Change::Altered(0);
        let Ok(out) = entries::swap(&mut self.entries, self.period, row, &mut change) else {
            unreachable!()
        };
        out
    }
}
