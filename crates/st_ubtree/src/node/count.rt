//! Counting what lies below nodes.
ghost use Rattle.std.specs.Prelude.{◌≡◌, ◌<◌, ◌^◌, length};
ghost use Rattle.st_index.specs.inner.Counting.{count_of};
ghost use Rattle.st_tally.specs.inner.Pages.{rows_of_pages};

use super::pages::count_pages;
use super::{Kids, Node};
use st_box::Query;
use st_index::{Judge, counting};
use std::alloc::Allocator;

impl<A: Allocator + Copy> Node<A> {
    /// How many rows below the node are inside the query and have a label that is found true. Where all are
    /// inside, the numbers of their labels say so.
    pub fn count<J: Judge<A>>(&self, query: &Query, judge: &mut J) -> u64
        requires { length (rows_of_pages self.now.pages) < 2 ^ 64 }
        ensures count { result ≡ count_of query.now (J.judges judge.old) (rows_of_pages self.now.pages) }
        ensures same { J.judges judge.new ≡ J.judges judge.old }
    {
        if !self.sum.meets(query) {
            return 0;
        }
        if let Some(count) = self.sum.count_inside(query, judge) {
            return count;
        }
        match &self.kids {
            Kids::Page(entries) => counting::count(entries.as_slice(), query, judge),
            Kids::Inner(kids, aside) => {
                if self.height == 1 {
                    return count_pages(&aside.marks, kids.as_slice(), query, judge);
                }
                let mut sum = 0;
                for kid in kids.as_slice() {
                    sum += kid.count(query, judge);
                }
                sum
            }
        }
    }
}
