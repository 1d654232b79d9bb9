//! The verdicts on the labels that have numbers.
ghost use Rattle.std.specs.Prelude.{◌≡◌, ◌<◌, ◌^◌, Bool, cond};
ghost use Rattle.st_text.specs.Texts.{Text};
ghost use Rattle.st_tally.specs.inner.Marks.{AreKnown, tallied, verdict_on};

use crate::marks::Marks;
use crate::numbering::{FEW_NUMBERS, MAX_NUMBERS};
use st_index::Judge;
use std::alloc::Allocator;

/// The verdicts on a node's labels that are known, so that each label is judged at most once.
#[derive(Drop)]
pub struct Verdicts<'m, A: Allocator> {
    pub marks: &'m Marks<A>,
    found: [Option<bool>; MAX_NUMBERS],
}

impl<'m, A: Allocator + Copy> Verdicts<'m, A> {
    /// None so far.
    pub fn none(marks: &'m Marks<A>) -> Verdicts<'m, A>
        ensures marks { result.marks.now ≡ marks.now }
        ensures known { (judges : Text → Bool) → AreKnown judges result.marks.now.labels.items result.found }
    {
        Verdicts {
            marks,
            found: [None; MAX_NUMBERS],
        }
    }

    /// Whether the label of a number is found true. Without a label it is not.
    pub fn of<J: Judge<A>>(&mut self, number: usize, judge: &mut J) -> bool
        requires low { number < 512 }
        requires known { AreKnown (J.judges judge.old) self.old.marks.now.labels.items self.old.found }
        ensures marks { self.new.marks ≡ self.old.marks }
        ensures known { AreKnown (J.judges judge.old) self.old.marks.now.labels.items self.new.found }
        ensures verdict { result ≡ verdict_on (J.judges judge.old) self.old.marks.now.labels.items number }
        ensures same { J.judges judge.new ≡ J.judges judge.old }
    {
        if let Some(verdict) = self.found[number] {
            return verdict;
        }
        let verdict = self.marks.verdict(number, judge);
        self.found[number] = Some(verdict);
        verdict
    }

    // How many of the rows tallied by a number have a label that is found true. Without rows it is not judged.
    fn share<J: Judge<A>>(&mut self, number: usize, rows: u64, judge: &mut J) -> u64
        requires low { number < 512 }
        requires known { AreKnown (J.judges judge.old) self.old.marks.now.labels.items self.old.found }
        ensures marks { self.new.marks ≡ self.old.marks }
        ensures known { AreKnown (J.judges judge.old) self.old.marks.now.labels.items self.new.found }
        ensures share { result ≡ cond (verdict_on (J.judges judge.old) self.old.marks.now.labels.items number) rows 0 }
        ensures same { J.judges judge.new ≡ J.judges judge.old }
    {
        if rows == 0 {
            return 0;
        }
        if self.of(number, judge) { rows } else { 0 }
    }

    /// How many of the tallied rows have a label that is found true.
    pub fn total<J: Judge<A>>(&mut self, tally: &[u64; FEW_NUMBERS], judge: &mut J) -> u64
        requires known { AreKnown (J.judges judge.old) self.old.marks.now.labels.items self.old.found }
        requires fits { tallied (J.judges judge.old) self.old.marks.now.labels.items tally.now < 2 ^ 64 }
        ensures marks { self.new.marks ≡ self.old.marks }
        ensures known { AreKnown (J.judges judge.old) self.old.marks.now.labels.items self.new.found }
        ensures total { result ≡ tallied (J.judges judge.old) self.old.marks.now.labels.items tally.now }
        ensures same { J.judges judge.new ≡ J.judges judge.old }
    {
        let mut sum = 0;
        for number in 0..FEW_NUMBERS {
            sum += self.share(number, tally[number], judge);
        }
        sum
    }
}
