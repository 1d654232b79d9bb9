//! The marks of pages, and the labels that have numbers in them.
//!
//! A label number is found by hash among up to 512; the list has room for 20 at first, then 80, 320 and 512. A point is its place
//! and its seconds since the page's week. An entry of several rows has neither, nor has a point 2^22 - 1 seconds or more after the
//! week's start. After a split both halves are marked anew, trying the numbers that stood nearby first.
ghost use Rattle.std.specs.Prelude.{◌≡◌, ◌≤◌, ◌<◌, ◌^◌, cond, IfSome, List, length};
ghost use Rattle.st_index.specs.inner.Changes.{IsChange};
ghost use Rattle.st_tally.specs.inner.Pages.{NodeValue, entries_of_pages};
ghost use Rattle.st_tally.specs.inner.Marks.{AreMarked, AreMarks, ClosesAt, HasAt, HasNone, HaveEntriesAt, OpensAt, StayMarked};
ghost use Rattle.st_tally.specs.inner.Marks.{tallied, verdict_on};

use crate::numbering::{FEW_NUMBERS, MAX_NUMBERS, NO_NUMBER, SLOTS};
use crate::page_marks::{PageMarks, follow, mark_page};
use st_index::entries::Change;
use st_index::{Entry, Judge};
use st_label::Label;
use std::alloc::{AllocError, Allocator, Global};
use std::mem;

// How many times as many labels a longer list has room for.
const GROWTH: usize = 4;

/// How many pages a new node has room for the marks of.
pub const FEW_PAGES: usize = 18;

// How many more pages a longer list has room for than it is to have.
const MORE_PAGES: usize = 1;

/// The labels below a node whose children are pages, in the order of their numbers, and the marks of the pages. Pages
/// may be without marks.
#[derive(Drop)]
pub struct Marks<A: Allocator = Global> {
    pub(crate) labels: Vec<Label<A>, A>,
    pub(crate) slots: Vec<u16, A>,
    pub(crate) pages: Vec<PageMarks, A>,
}

/// A longer list: for labels, with slots for their numbers, or for the marks of pages.
#[derive(Drop)]
pub enum Room<A: Allocator = Global> {
    Labels(Vec<Label<A>, A>, Vec<u16, A>),
    Pages(Vec<PageMarks, A>),
}

impl<A: Allocator + Copy> Room<A> {
    /// Room for the marks of so many pages.
    pub fn pages(alloc: A, count: usize) -> Result<Room<A>, AllocError> {
        Ok(Room::Pages(Vec::with_capacity(alloc, count)?))
    }

    /// Room for so many labels.
    pub fn labels(alloc: A, count: usize) -> Result<Room<A>, AllocError> {
        let labels = Vec::with_capacity(alloc, count)?;
        let slots = if count < MAX_NUMBERS {
            Vec::new(alloc)
        } else {
            vec![in alloc; NO_NUMBER; SLOTS]?
        };
        Ok(Room::Labels(labels, slots))
    }
}

// What may be the marks of a page that comes in at a place, as the upper half of the one before it.
fn beside(pages: &[PageMarks], at: usize) -> PageMarks
    ensures { HasNone result }
{
    match pages.get(at.saturating_sub(1)) {
        Some(page) => page.of_upper_half(),
        None => PageMarks::none(),
    }
}

impl<A: Allocator + Copy> Marks<A> {
    /// No page has marks. As many labels may come to have numbers, and as many pages marks, as the lists have room for.
    pub fn new(mut labels: Vec<Label<A>, A>, mut pages: Vec<PageMarks, A>) -> Marks<A>
        ensures { (kids : List (NodeValue A)) → AreMarked result kids }
    {
        labels.clear();
        pages.clear();
        let slots = Vec::new(*labels.allocator());
        Marks {
            labels,
            slots,
            pages,
        }
    }

    /// Takes away all marks.
    pub fn clear(&mut self)
        ensures { (kids : List (NodeValue A)) → AreMarked self.new kids }
    {
        self.labels.clear();
        self.slots.fill(NO_NUMBER);
        self.pages.clear();
    }

    /// Takes away the marks of a page that is to change.
    pub fn clear_page(&mut self, at: usize)
        ensures { (old new : List (NodeValue A)) → StayMarked at self.old self.new old new }
    {
        if at >= self.pages.len() {
            return;
        }
        let page = &mut self.pages[at];
        page.known = false;
    }

    /// Lets the numbers of a page and the next be likely ones where entries went over between them: the page had so many before,
    /// and has so many now. Neither has marks then.
    pub fn shift(&mut self, at: usize, had: usize, has: usize)
        ensures { (kids : List (NodeValue A)) → AreMarked self.old kids → AreMarked self.new kids }
    {
        let next = at.saturating_add(1);
        if next >= self.pages.len() {
            return;
        }
        let (first, second) = self.pages[at].shifted(&self.pages[next], had, has);
        self.pages[at] = first;
        self.pages[next] = second;
    }

    /// Marks anew the one entry of a page that changed, if the page has marks.
    pub fn follow(&mut self, at: usize, change: Change, entries: &[Entry<A>])
        requires { length entries.now ≤ 32 }
        ensures { (old new : List (NodeValue A)) (u : NodeValue A) → HasAt old at u → IsChange change (entries_of_pages u.pages) entries.now
            → HaveEntriesAt new at entries.now → StayMarked at self.old self.new old new }
    {
        if at >= self.pages.len() {
            return;
        }
        let page = &mut self.pages[at];
        if !page.known {
            return;
        }
        page.known = follow(&mut self.labels, &mut self.slots, page, change, entries);
    }

    /// Makes room for the marks of a page that comes before those from a place on.
    pub fn open(&mut self, at: usize)
        ensures { (old new : List (NodeValue A)) → OpensAt at old new → AreMarked self.old old → AreMarked self.new new }
    {
        if at > self.pages.len() {
            return;
        }
        if self.pages.len() >= self.pages.capacity() {
            self.clear();
            return;
        }
        let marks = beside(self.pages.as_slice(), at);
        let Ok(()) = self.pages.insert(at, marks) else {
            unreachable!()
        };
    }

    /// Lets go of the marks of a page that is taken out.
    pub fn close(&mut self, at: usize)
        ensures { (old new : List (NodeValue A)) → ClosesAt at old new → AreMarked self.old old → AreMarked self.new new }
    {
        if at >= self.pages.len() {
            return;
        }
        let _marks = self.pages.remove(at);
    }

    /// Whether there are only as few numbers as there is room for at first.
    pub fn has_few(&self) -> bool {
        self.labels.len() <= FEW_NUMBERS
    }

    /// For how many labels there is to be room, where there is none for more: 0 where there is.
    pub fn wanted(&self) -> usize {
        let room = self.labels.capacity();
        if self.labels.len() < room || room >= MAX_NUMBERS {
            return 0;
        }
        room.saturating_mul(GROWTH).min(MAX_NUMBERS)
    }

    /// How many pages there is to be room for where these are to have marks: 0 where there is enough.
    pub fn wanted_pages(&self, pages: usize) -> usize {
        if self.pages.capacity() >= pages {
            return 0;
        }
        pages.saturating_add(MORE_PAGES)
    }

    // Takes away all marks, and takes a longer list for labels.
    fn take_labels(&mut self, labels: Vec<Label<A>, A>, slots: Vec<u16, A>)
        ensures { (kids : List (NodeValue A)) → AreMarked self.new kids }
    {
        self.labels = labels;
        self.slots = slots;
        let pages = &mut self.pages;
        pages.clear();
    }

    // Takes a longer list for the marks of pages.
    fn take_pages(&mut self, mut longer: Vec<PageMarks, A>)
        ensures { (kids : List (NodeValue A)) → AreMarked self.old kids → AreMarked self.new kids }
    {
        longer.clear();
        if longer.capacity() < self.pages.len() {
            return;
        }
        let Ok(()) = longer.append(&mut self.pages) else {
            unreachable!()
        };
        self.pages = longer;
    }

    /// Makes room for more labels, where all marks are taken away, or for the marks of more pages.
    pub fn make_room(&mut self, room: Room<A>)
        ensures { (kids : List (NodeValue A)) → AreMarked self.old kids → AreMarked self.new kids }
    {
        match room {
            Room::Labels(labels, slots) => self.take_labels(labels, slots),
            Room::Pages(pages) => self.take_pages(pages),
        }
    }

    /// Takes another list for the marks of pages. There are none then.
    pub fn renew(&mut self, pages: Vec<PageMarks, A>) {
        self.pages = pages;
        self.clear();
    }

    /// Keeps the longer one of two lists for the marks of pages. There are none then.
    pub fn keep_longer(&mut self, other: &mut Marks<A>)
        ensures { (kids : List (NodeValue A)) → AreMarked self.new kids }
    {
        if other.pages.capacity() > self.pages.capacity() {
            mem::swap(&mut self.pages, &mut other.pages);
        }
        self.clear();
    }

    // Puts in a page without marks at a place, if it comes right behind the others there, and takes no memory.
    fn add_page(&mut self, at: usize)
        ensures labels { self.new.labels ≡ self.old.labels }
        ensures marked { (kids : List (NodeValue A)) → AreMarked self.old kids → AreMarked self.new kids }
    {
        if at != self.pages.len() {
            return;
        }
        if at >= self.pages.capacity() {
            return;
        }
        let Ok(()) = self.pages.push(PageMarks::none()) else {
            unreachable!()
        };
    }

    /// Marks the entries of a page whose marks are not known, if all pages before it have marks, and there is room for its own.
    pub fn mark(&mut self, at: usize, entries: &[Entry<A>])
        requires { length entries.now ≤ 32 }
        ensures { (kids : List (NodeValue A)) → ((v : NodeValue A) → HasAt kids at v → entries_of_pages v.pages ≡ entries.now)
            → AreMarked self.old kids → AreMarked self.new kids }
    {
        self.add_page(at);
        if at >= self.pages.len() {
            return;
        }
        let page = &mut self.pages[at];
        if page.known {
            return;
        }
        mark_page(&mut self.labels, &mut self.slots, page, entries);
    }

    /// The marks of a page, if it has some.
    pub fn page(&self, at: usize) -> Option<&PageMarks>
        ensures { IfSome result (λ p. (kids : List (NodeValue A)) (v : NodeValue A) → HasAt kids at v → AreMarked self.now kids
            → AreMarks self.now.labels.items (entries_of_pages v.pages) p.now) }
    {
        if at >= self.pages.len() {
            return None;
        }
        let marks = &self.pages[at];
        if !marks.known {
            return None;
        }
        Some(marks)
    }

    // How many of the rows tallied by a number have a label that is found true. Without rows it is not judged.
    fn share<J: Judge<A>>(&self, number: usize, rows: u64, judge: &mut J) -> u64
        ensures share { result ≡ cond (verdict_on (J.judges judge.old) self.now.labels.items number) rows 0 }
        ensures same { J.judges judge.new ≡ J.judges judge.old }
    {
        if rows == 0 {
            return 0;
        }
        if self.verdict(number, judge) { rows } else { 0 }
    }

    /// How many of the tallied rows have a label that is found true.
    pub fn total<J: Judge<A>>(&self, tally: &[u64], judge: &mut J) -> u64
        requires fits { tallied (J.judges judge.old) self.now.labels.items tally.now < 2 ^ 64 }
        ensures total { result ≡ tallied (J.judges judge.old) self.now.labels.items tally.now }
        ensures same { J.judges judge.new ≡ J.judges judge.old }
    {
        let most = self.labels.len().min(tally.len());
        let mut sum = 0;
        for number in 0..most {
            sum += self.share(number, tally[number], judge);
        }
        sum
    }

    /// Whether the label of a number is found true. Without a label it is not.
    pub fn verdict<J: Judge<A>>(&self, number: usize, judge: &mut J) -> bool
        ensures verdict { result ≡ verdict_on (J.judges judge.old) self.now.labels.items number }
        ensures same { J.judges judge.new ≡ J.judges judge.old }
    {
        match self.labels.get(number) {
            Some(label) => judge.finds_true(label),
            None => false,
        }
    }
}
