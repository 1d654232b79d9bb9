//! Calls of a table, with each growth refused in turn.

use crate::tabling::{Said, query_of, row_of};
use refusing_alloc::Refusing;
use st_auth::Auths;
use st_box::Query;
use st_index::{AsRow, Row, RowIndex, RowView};
use st_key::Period;
use st_table::{Seed, Table};
use st_ubtree::UbTree;
use std::alloc::{Allocator, Global};

// What the hashes of ids begin with. Any would do.
const SEED: Seed = Seed {
    first: 1,
    second: 2,
};

const ROWS: [Said<'static>; 3] = [
    ("p", "A", [0, 0, 0]),
    ("p", "B", [1, 0, 0]),
    ("q", "", [2, 0, 0]),
];

// The box of all points.
const WHOLE: [u64; 6] = [0, 2_097_151, 0, 2_097_151, 0, 19_818_086_399];

#[derive(Clone, Copy)]
enum Call {
    Put,
    Get,
    Page,
    Grid,
}

impl Call {
    // Whether it is answered only where each growth is found. A page and a grid do without remembered verdicts.
    fn needs_all(self) -> bool {
        match self {
            Call::Put | Call::Get => true,
            Call::Page | Call::Grid => false,
        }
    }
}

// A table, as these tests ask it. Each call tells whether it is answered.
trait Asked {
    type Alloc: Allocator + Copy;

    // Puts in a copy of a row.
    fn puts_copy(&mut self, row: &Row<Self::Alloc>) -> bool;

    // Reads what these authorizations see: the rows of the id p, a page of two rows, or a grid of two columns and lines.
    fn reads(&self, query: &Query, auths: &Auths, call: Call) -> bool;
}

impl<I: RowIndex> Asked for Table<I> {
    type Alloc = I::Alloc;

    fn puts_copy(&mut self, row: &Row<I::Alloc>) -> bool {
        match I::Row::copy_of(&RowView::of(row)) {
            Ok(row) => self.put(row).is_ok(),
            Err(_) => false,
        }
    }

    fn reads(&self, query: &Query, auths: &Auths, call: Call) -> bool {
        match call {
            Call::Put => false,
            Call::Get => self.get("p", auths).is_ok(),
            Call::Page => self.page::<Global, Global>(query, auths, None, 2).is_ok(),
            Call::Grid => self.grid(query, auths, 2, 2).is_ok(),
        }
    }
}

// Makes a call. Whether it is answered.
fn answers<T: Asked>(
    alloc: Global,
    table: &mut T,
    row: &Row<T::Alloc>,
    call: Call,
) -> Option<bool> {
    if let Call::Put = call {
        return Some(table.puts_copy(row));
    }
    let auths = Auths::from_list(alloc, &["A", "B"]).ok()?;
    Some(table.reads(&query_of(WHOLE)?, &auths, call))
}

// Refuses each growth of a call in turn. Gives how many there are, if no call that needs all its growths is answered without one.
fn growths_over<T: Asked>(
    heap: &Refusing<Global>,
    alloc: Global,
    table: &mut T,
    row: &Row<T::Alloc>,
    call: Call,
) -> Option<u64> {
    for n in 1..100u64 {
        heap.arm(n);
        let is_answered = answers(alloc, table, row, call)?;
        if heap.is_armed() {
            heap.arm(0);
            return if is_answered { Some(n - 1) } else { None };
        }
        if is_answered && call.needs_all() {
            return None;
        }
    }
    None
}

// Puts rows into a table.
fn fill<T: Asked>(over: T::Alloc, table: &mut T, rows: &[Said<'_>]) -> Option<()> {
    for row in rows {
        if !table.puts_copy(&row_of(over, *row)?) {
            return None;
        }
    }
    Some(())
}

// That of a call with the row that is said, once the rows are in the table.
fn growths_with<T: Asked>(
    heap: &Refusing<Global>,
    (over, alloc): (T::Alloc, Global),
    table: &mut T,
    call: Call,
    said: Said<'_>,
) -> Option<u64> {
    fill(over, table, &ROWS)?;
    let row = row_of(over, said)?;
    growths_over(heap, alloc, table, &row, call)
}

// A table of no rows over a UB-tree.
fn empty<A: Allocator + Copy>(alloc: A) -> Option<Table<UbTree<A>>> {
    let Ok(tree) = UbTree::new(alloc, Period::Week) else {
        return None;
    };
    Table::new(alloc, SEED, tree).ok()
}

// How many growths a call of a new table over an allocator takes.
fn growths_of<A: Allocator + Copy>(
    heap: &Refusing<Global>,
    (over, alloc): (A, Global),
    call: Call,
    said: Said<'_>,
) -> Option<u64> {
    let mut table = empty(over)?;
    let count = growths_with(heap, (over, alloc), &mut table, call, said);
    drop(table);
    count
}

// That of a table over the heap that refuses.
fn growths(heap: &Refusing<Global>, alloc: Global, call: Call, said: Said<'_>) -> Option<u64> {
    growths_of(heap, (heap, alloc), call, said)
}

const LONG: &str = "an id of more than 15 bytes";

const CASES: [(Call, Said<'static>); 6] = [
    (Call::Put, ("r", "A", [1, 0, 0])),
    (Call::Put, ("p", "A", [2, 0, 0])),
    (Call::Put, (LONG, "A&B", [0; 3])),
    (Call::Get, ("r", "A", [1, 0, 0])),
    (Call::Page, ("r", "A", [1, 0, 0])),
    (Call::Grid, ("r", "A", [1, 0, 0])),
];

// Whether each of these calls grows, and each growth can be refused.
fn are_refused(heap: &Refusing<Global>, alloc: Global, cases: &[(Call, Said<'_>)]) -> bool {
    for (call, said) in cases {
        if growths(heap, alloc, *call, *said).unwrap_or(0) == 0 {
            return false;
        }
    }
    true
}

#[test]
fn each_growth_refused(rt: HostRuntime) {
    let heap = Refusing::new(rt.alloc());
    assert!(rt; are_refused(&heap, rt.alloc(), &CASES));
}

// A row that moves to a point of its own lies in its entry there.
#[test]
fn a_move_to_a_free_point(rt: HostRuntime) {
    let heap = Refusing::new(rt.alloc());
    let moved = ("p", "A", [9, 9, 9]);
    assert!(rt; growths(&heap, rt.alloc(), Call::Put, moved) == Some(0));
}
