//! Counting in fields what lies below nodes.
ghost use Rattle.std.specs.Prelude.{◌≡◌, List, length};
ghost use Rattle.std.specs.List.{All};
ghost use Rattle.st_index.specs.inner.Fields.{CanAdd, Counts};
ghost use Rattle.st_tally.specs.inner.Pages.{NodeValue, rows_of_pages};
ghost use Rattle.st_ubtree.specs.inner.Kids.{pages_of};
ghost use Rattle.st_tally.specs.inner.Marks.{AreKnown, AreMarked, HasAt};

use super::{Kids, Node};
use st_index::{Fields, Judge, field_counting};
use st_tally::field_marked::{count_inside, count_marked};
use st_tally::marks::Marks;
use st_tally::verdicts::Verdicts;
use std::alloc::Allocator;

impl<A: Allocator + Copy> Node<A> {
    /// Adds to the number of each field how many rows below the node are in it, inside the query, and have a label that is
    /// found true. Where all are in one field, they are counted together.
    pub fn count_fields<J: Judge<A>, F: Fields>(
        &self,
        judge: &mut J,
        fields: &F,
        counts: &mut [u64],
    )
        requires long { length counts.old ≡ F.count fields.now }
        requires fits { CanAdd (length (rows_of_pages self.now.pages)) counts.old }
        ensures counts { Counts (F.query fields.now) (J.judges judge.old) (F.field_of fields.now) (rows_of_pages self.now.pages)
            counts.old counts.new }
        ensures same { J.judges judge.new ≡ J.judges judge.old }
    {
        let query = fields.query();
        if !self.sum.meets(query) {
            return;
        }
        if let Some(field) = self.sum.one_field(fields) {
            let rows = self.count(query, judge);
            field_counting::add(counts, field, rows);
            return;
        }
        match &self.kids {
            Kids::Page(entries) => {
                field_counting::count(entries.as_slice(), judge, fields, counts);
            }
            Kids::Inner(kids, aside) => {
                if self.height == 1 {
                    count_pages(&aside.marks, kids.as_slice(), judge, fields, counts);
                    return;
                }
                for kid in kids.as_slice() {
                    kid.count_fields(judge, fields, counts);
                }
            }
        }
    }

    // The same for a page, by its marks if it has some.
    fn count_page_fields<J: Judge<A>, F: Fields>(
        &self,
        at: usize,
        verdicts: &mut Verdicts<'_, A>,
        judge: &mut J,
        fields: &F,
        counts: &mut [u64],
    )
        requires lowest { self.now.height ≡ 0 }
        requires long { length counts.old ≡ F.count fields.now }
        requires fits { CanAdd (length (rows_of_pages self.now.pages)) counts.old }
        requires marked { (kids : List (NodeValue A)) × AreMarked verdicts.old.marks.now kids × HasAt kids at self.now }
        requires known { AreKnown (J.judges judge.old) verdicts.old.marks.now.labels.items verdicts.old.found }
        ensures marks { verdicts.new.marks ≡ verdicts.old.marks }
        ensures known { AreKnown (J.judges judge.old) verdicts.old.marks.now.labels.items verdicts.new.found }
        ensures counts { Counts (F.query fields.now) (J.judges judge.old) (F.field_of fields.now) (rows_of_pages self.now.pages)
            counts.old counts.new }
        ensures same { J.judges judge.new ≡ J.judges judge.old }
    {
        let query = fields.query();
        if !self.sum.meets(query) {
            return;
        }
        if verdicts.marks.has_few()
            && let Some(field) = self.sum.one_field(fields)
        {
            let rows = self.count_page(at, verdicts, query, judge);
            field_counting::add(counts, field, rows);
            return;
        }
        let Kids::Page(entries) = &self.kids else {
            unreachable!()
        };
        let entries = entries.as_slice();
        let Some(page) = verdicts.marks.page(at) else {
            return field_counting::count(entries, judge, fields, counts);
        };
        if self.sum.lies_in(query) {
            return count_inside(entries, page, verdicts, judge, fields, counts);
        }
        count_marked(entries, page, verdicts, judge, fields, counts);
    }
}

// Adds to the number of each field how many rows of some pages are in it.
fn count_pages<A: Allocator + Copy, J: Judge<A>, F: Fields>(
    marks: &Marks<A>,
    kids: &[Node<A>],
    judge: &mut J,
    fields: &F,
    counts: &mut [u64],
)
    requires lowest { All (λ (v : NodeValue A). v.height ≡ 0) kids.now }
    requires long { length counts.old ≡ F.count fields.now }
    requires fits { CanAdd (length (rows_of_pages (pages_of kids.now))) counts.old }
    requires marked { AreMarked marks.now kids.now }
    ensures counts { Counts (F.query fields.now) (J.judges judge.old) (F.field_of fields.now) (rows_of_pages (pages_of kids.now))
        counts.old counts.new }
    ensures same { J.judges judge.new ≡ J.judges judge.old }
{
    let mut verdicts = Verdicts::none(marks);
    for at in 0..kids.len() {
        let kid = &kids[at];
        kid.count_page_fields(at, &mut verdicts, judge, fields, counts);
    }
}
