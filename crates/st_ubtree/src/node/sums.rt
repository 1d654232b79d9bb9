//! Summaries of what lies below nodes.
ghost use Rattle.std.specs.Prelude.{◌≡◌, ◌++◌, [], ◌∷◌, List, MatchOption, IsFalse};
ghost use Rattle.std.specs.List.{All};
ghost use Rattle.st_index.specs.declared.row.Row.{Row as RowValue};
ghost use Rattle.st_tally.specs.inner.Pages.{rows_of_pages};
ghost use Rattle.st_ubtree.specs.inner.Kids.{pages_of};
ghost use Rattle.st_ubtree.specs.inner.Nodes.{rows_under};
ghost use Rattle.st_tally.specs.inner.Sums.{IsWithin, Sums};

use super::{Kids, Node};
use st_index::Row;
use st_tally::bounds::Bounds;
use st_tally::summary::Summary;
use std::alloc::Allocator;

impl<A: Allocator + Copy> Node<A> {
    // The bounds of what lies below the node.
    fn bounds(&self) -> Bounds
        ensures { All (λ (row : RowValue A). IsWithin result row.point) (rows_of_pages self.now.pages) }
    {
        self.sum.bounds()
    }

    // Adds what lies below the node to a summary.
    fn add_to(&self, sum: &mut Summary<A>)
        ensures { (rows : List (RowValue A)) → Sums sum.old rows → Sums sum.new (rows ++ rows_of_pages self.now.pages) }
    {
        match &self.kids {
            Kids::Page(entries) => sum.add_page(&self.sum, entries.as_slice()),
            Kids::Inner(..) => sum.add_all(&self.sum),
        }
    }
}

// Adds what lies below some nodes to a summary.
pub(super) fn add_kids<A: Allocator + Copy>(sum: &mut Summary<A>, kids: &[Node<A>])
    ensures { (rows : List (RowValue A)) → Sums sum.old rows → Sums sum.new (rows ++ rows_of_pages (pages_of kids.now)) }
{
    for kid in kids {
        kid.add_to(sum);
    }
}

// The bounds of what lies below some nodes.
pub(super) fn bounds_of<A: Allocator + Copy>(kids: &[Node<A>]) -> Bounds
    ensures { All (λ (row : RowValue A). IsWithin result row.point) (rows_of_pages (pages_of kids.now)) }
{
    let mut bounds = Bounds::NONE;
    for kid in kids {
        bounds = bounds.joined(kid.bounds());
    }
    bounds
}

// Parts the summary of two lists of nodes into one of each. The later nodes are counted, and the others are what is left: only where
// labels are not counted, those are summed up too.
pub(super) fn part<A: Allocator + Copy>(
    sum: &mut Summary<A>,
    kids: &[Node<A>],
    later_sum: &mut Summary<A>,
    later: &[Node<A>],
)
    requires { Sums sum.old (rows_of_pages (pages_of kids.now) ++ rows_of_pages (pages_of later.now)) }
    ensures kids { Sums sum.new (rows_of_pages (pages_of kids.now)) }
    ensures later { Sums later_sum.new (rows_of_pages (pages_of later.now)) }
{
    later_sum.clear();
    add_kids(later_sum, later);
    sum.take_all(later_sum);
    if sum.counts_labels() {
        sum.set_bounds(bounds_of(kids));
        return;
    }
    sum.clear();
    add_kids(sum, kids);
}

// Sums up what lies below a node again.
pub(super) fn renew<A: Allocator + Copy>(sum: &mut Summary<A>, kids: &Kids<A>)
    ensures { Sums sum.new (rows_under kids.now) }
{
    sum.clear();
    match kids {
        Kids::Page(entries) => sum.add_entries(entries.as_slice()),
        Kids::Inner(kids, _) => add_kids(sum, kids.as_slice()),
    }
}

// Sums up what lies below a node again, if the summary may be another one or should be.
pub(super) fn renew_if<A: Allocator + Copy>(due: bool, sum: &mut Summary<A>, kids: &Kids<A>)
    requires { IsFalse due → Sums sum.old (rows_under kids.now) }
    ensures { Sums sum.new (rows_under kids.now) }
{
    if !due {
        return;
    }
    renew(sum, kids);
}

// Takes a row out of a summary, if there is one. Its label is likely to stand at a place.
pub(super) fn drop_row<A: Allocator + Copy>(
    sum: &mut Summary<A>,
    taken: &Option<Row<A>>,
    likely: usize,
)
    ensures { (rows : List (RowValue A)) → MatchOption taken.now (Sums sum.old rows → Sums sum.new rows)
        (λ row. Sums sum.old (rows ++ row ∷ []) → Sums sum.new rows) }
{
    let Some(row) = taken else {
        return;
    };
    sum.take(row, likely);
}
