//! What keeps the changes that are decided, and publishes them.
ghost use Rattle.std.specs.Prelude.{◌≡◌, ◌≢◌, ◌<◌, [], length, true, false, List, Err, IfNone, IfOk, IfSome, OnOk, MatchResult};
ghost use mathlib.Core.List.{IsPrefix};
ghost use Rattle.st_journal.specs.declared.record.Record.{Record};
ghost use Rattle.st_journal.specs.declared.read_back.ReadError.TheVariants as ends;
ghost use Rattle.st_journal.specs.Replays.{Replays};
ghost use Rattle.st_journal.specs.Leaving.{LeavesOnly};
ghost use Rattle.st_journal_store.specs.Applying.{Applies};
ghost use Rattle.st_hall_press.specs.Steps.{state_after};
ghost use Rattle.st_hall_group_commit.specs.Rolls.{HasFailed, LeadPast, LeadToOne, Leaves, WasRead};

use crate::draft::{Batch, Draft};
use crate::keeping::{Failure, append_all, read_from};
use st_hall::Lost;
use st_hall_press::{Front, HallName, KeptFront, KeptMark, Press};
use st_journal::{Journal, ReadBack, ReadError, Record};
use st_journal_store::Beginning;
use std::marker::{Model, PhantomData};
use std::sync::{Mutex, Wait};

/// A journal and a press. Changes are kept by one append for all that were decided since the last one, and then published. A thread
/// holds its lock while they are. Contracts see the list as far as an append was given it, the part of it that is kept, the part
/// that is published, the journal, and whether an append failed.
pub struct Publisher<B: Beginning, H: HallName, R: Wait + Drop, J: Journal + Drop> {
    press: Press<H, R>,
    journal: J,
    // The list up to the last change that was given to an append.
    tried: Front<H>,
    kept: KeptFront<H>,
    // It says how long that is.
    mark: KeptMark<H>,
    is_lost: bool,
    failure: Option<Failure<J>>,
    beginning: PhantomData<B>,
}

// Written out, and not derived: a derived drop is proved anew in each crate that owns a publisher.
impl<B: Beginning, H: HallName, R: Wait + Drop, J: Journal + Drop> Drop for Publisher<B, H, R, J> {
    fn drop(self) {
        let Self {
            press: _press,
            journal: _journal,
            tried: _tried,
            kept: _kept,
            mark: _mark,
            is_lost: _is_lost,
            failure: _failure,
            beginning: _beginning,
        } = self;
    }
}

impl<B: Beginning, H: HallName, R: Wait + Drop, J: Journal + Drop> Model for Publisher<B, H, R, J> {
    ghost use Rattle.std.specs.Prelude.{◌≡◌, [], length};
    ghost use mathlib.Core.List.{IsPrefix};
    ghost use Rattle.st_hall_group_commit.specs.Rolls.{KeptRoll};
    ghost use Rattle.st_hall_group_commit.specs.inner.Sound.{IsSound};

    ghost Value = { KeptRoll J };

    ghost view = { λ k. record {
      list = k.tried;
      kept = k.kept;
      published = k.press.published;
      journal = k.journal;
      is_lost = k.is_lost;
    } };

    ghost invariant = { λ k. IsPrefix k.press.pushed k.kept × (k.mark ≡ length k.kept)
        × IsSound J.Journal B.first H.start [] (record {
          list = k.tried;
          kept = k.kept;
          published = k.press.published;
          journal = k.journal;
          is_lost = k.is_lost;
        }) };
}

// Whether two fronts are equal.
fn are_equal<H: HallName>(one: &Front<H>, other: &Front<H>) -> bool
    ensures { result ≡ true → one.now ≡ other.now }
{
    let _both = one.longer(other);
    one.len() == other.len()
}

impl<B: Beginning, H: HallName, R: Wait + Drop, J: Journal + Drop> Publisher<B, H, R, J> {
    /// The publisher of a hall that was just opened over two stores of the state to which the journal's list leads.
    pub fn new(press: Press<H, R>, mut mark: KeptMark<H>, journal: J) -> Publisher<B, H, R, J>
        requires empty { (press.pushed ≡ []) × (press.published ≡ []) × (mark ≡ 0) }
        requires ready { J.is_ready journal }
        requires stands { J.misreads journal ≡ 0 → Replays Applies B.first (J.list journal) H.start }
        ensures { result ≡ record { list = []; kept = []; published = []; journal = journal; is_lost = false } }
    {
        let tried = press.front();
        let kept = mark.token(press.front());
        Publisher {
            press,
            journal,
            tried,
            kept,
            mark,
            is_lost: false,
            failure: None,
            beginning: PhantomData,
        }
    }

    /// What is published begins what is kept, and that begins the list. Unless an append failed, the journal's list leads to the
    /// state after what is kept. Whatever the journal may leave if the process ends now leads to the state after a beginning of the
    /// list, with at least all that is kept. It does nothing.
    pub fn laws(&self)
        ensures published { IsPrefix self.now.published self.now.kept }
        ensures begins { IsPrefix self.now.kept self.now.list }
        ensures stands { self.now.is_lost ≡ false → J.misreads self.now.journal ≡ 0
            → Replays Applies B.first (J.list self.now.journal) (state_after H.start self.now.kept) }
        ensures leaves { LeavesOnly J.Journal self.now.journal (λ left. LeadPast B.first H.start self.now.kept self.now.list left) }
    {
        let _lost = self.is_lost;
    }

    /// What is kept covers every kept-front token of the hall. A lemma: it does nothing at run time.
    pub fn laws_of(&mut self, known: &KeptFront<H>)
        ensures has { IsPrefix known.now self.old.kept }
        ensures same { self.new ≡ self.old }
    {
        self.kept.front().compare(known.front());
        self.mark.bounds(known);
    }

    /// A front as one that is kept, where it is.
    pub fn find(&self, front: &Front<H>) -> Option<KeptFront<H>>
        ensures is { IfSome result (λ kept. kept ≡ front.now) }
        ensures some { IfSome result (λ kept. IsPrefix kept self.now.kept) }
        ensures none { IfNone result (length self.now.kept < length front.now) }
    {
        self.kept.front().compare(front);
        if front.len() <= self.kept.front().len() {
            Some(self.kept.as_kept(front))
        } else {
            None
        }
    }

    /// What is kept.
    pub fn kept(&self) -> KeptFront<H>
        ensures { result ≡ self.now.kept }
    {
        self.kept.again()
    }

    /// What is published.
    pub fn published(&self) -> Front<H>
        ensures { result ≡ self.now.published }
    {
        self.press.published_front()
    }

    /// What is kept. It covers `known`, and a crash now would leave at least that, and nothing beyond `list`. `None` if an append was given
    /// more than `list`.
    pub fn left(&mut self, list: &Front<H>, known: &KeptFront<H>) -> Option<Front<H>>
        ensures leaves { IfSome result (λ kept. Leaves J.Journal B.first H.start kept list.now) }
        ensures has { IfSome result (λ kept. IsPrefix known.now kept) }
        ensures begins { IfSome result (λ kept. IsPrefix kept list.now) }
        ensures same { self.new ≡ self.old }
    {
        self.laws();
        self.laws_of(known);
        list.compare(&self.tried);
        if list.len() < self.tried.len() {
            return None;
        }
        Some(self.kept.front().again())
    }

    /// The journal.
    pub fn journal(&self) -> &J
        ensures { result.now ≡ self.now.journal }
    {
        &self.journal
    }

    /// Whether an append or a reading was lost since the journal failed.
    pub fn has_failed(&self) -> bool
        ensures { result ≡ true → HasFailed J.Journal }
    {
        match &self.failure {
            Some(failure) => failure.is_certain(),
            None => false,
        }
    }

    // Whether a front is published.
    fn has_published(&self, front: &Front<H>) -> bool
        ensures { result ≡ true → IsPrefix front.now self.now.published }
    {
        let published = self.press.published_front();
        let _both = published.longer(front);
        front.len() <= published.len()
    }

    /// Syncs a batch by one append. At an error the journal takes no more, and whether it has all of these records or none is unknown
    /// until it is reopened.
    pub fn keep(&mut self, batch: Batch<H>) -> Result<(), Lost>
        requires goes_on { IsPrefix batch.from batch.to }
        requires leads { Replays Applies (state_after H.start batch.from) batch.records.items (state_after H.start batch.to) }
        ensures published { self.new.published ≡ self.old.published }
        ensures kept { MatchResult result (λ _. self.new.kept ≡ batch.to) (λ _. self.new.kept ≡ self.old.kept) }
        ensures grows { IsPrefix self.old.kept self.new.kept }
        ensures lost { OnOk result (self.new.is_lost ≡ false) }
        ensures stays { self.old.is_lost ≡ true → (self.new ≡ self.old) }
        ensures whole { self.old.is_lost ≡ false → LeavesOnly J.Journal self.new.journal
            (λ left. LeadToOne B.first H.start self.old.kept self.new.list left) }
    {
        let Batch { from, records, to } = batch;
        // A batch that goes on another list than the kept one never comes.
        if self.is_lost || !are_equal(&from, self.kept.front()) {
            return Err(Lost);
        }
        match append_all(&mut self.journal, records.as_slice()) {
            Ok(()) => {
                self.tried = to.again();
                self.mark.rise(to.len());
                self.kept = self.mark.token(to);
                Ok(())
            }
            Err(failure) => {
                self.tried = to;
                self.is_lost = true;
                self.failure = failure;
                Err(Lost)
            }
        }
    }

    // Syncs all that is decided so far. If that fails, the draft is closed and decides no more.
    fn keep_draft<W: Wait>(&mut self, rt: &W, draft: &Mutex<Draft<H>>) -> Result<(), Lost>
        ensures grows { IsPrefix self.old.kept self.new.kept }
        ensures published { self.new.published ≡ self.old.published }
        ensures stays { self.old.is_lost ≡ true → (self.new ≡ self.old) }
    {
        let batch = draft.lock(rt).take();
        let kept = self.keep(batch);
        if kept.is_err() {
            draft.lock(rt).close();
        }
        kept
    }

    /// Keeps a front, with all that is decided by now, unless another thread has kept it already. The front as one that is kept; there
    /// is none where it is not, which may be once an append failed.
    pub fn keep_front<W: Wait>(
        &mut self,
        rt: &W,
        draft: &Mutex<Draft<H>>,
        front: &Front<H>,
    ) -> Option<KeptFront<H>>
        ensures is { IfSome result (λ kept. kept ≡ front.now) }
        ensures some { IfSome result (λ kept. IsPrefix kept self.new.kept) }
        ensures grows { IsPrefix self.old.kept self.new.kept }
        ensures published { self.new.published ≡ self.old.published }
    {
        if self.find(front).is_none() {
            let _kept = self.keep_draft(rt, draft);
        }
        self.find(front)
    }

    /// Publishes a front with all that is kept, unless it is published already. Whether it is published, for which there may be no
    /// memory.
    pub fn publish_front<W: Wait>(
        &mut self,
        rt: &W,
        draft: &Mutex<Draft<H>>,
        front: &Front<H>,
    ) -> bool
        ensures same { self.new.kept ≡ self.old.kept }
        ensures published { result ≡ true → IsPrefix front.now self.new.published }
        ensures grows { IsPrefix self.old.published self.new.published }
    {
        if !self.has_published(front) {
            self.publish(rt, draft);
        }
        self.has_published(front)
    }

    // Publishes what is kept, as far as there is memory.
    fn publish<W: Wait>(&mut self, rt: &W, draft: &Mutex<Draft<H>>)
        ensures same { (self.new.list ≡ self.old.list) × (self.new.kept ≡ self.old.kept) }
        ensures journal { (self.new.journal ≡ self.old.journal) × (self.new.is_lost ≡ self.old.is_lost) }
        ensures grows { IsPrefix self.old.published self.new.published }
    {
        draft.lock(rt).hand_over(&mut self.press, self.kept.front());
        drop(self.press.publish(rt));
    }
}

// Whether a reading says that the journal takes no more.
fn says_lost(read: &Result<Vec<Record>, ReadError>) -> bool
    ensures { result ≡ false → read.now ≢ Err ends.Lost }
{
    matches!(read, Err(ReadError::Lost))
}

impl<B: Beginning, H: HallName, R: Wait + Drop, J: ReadBack + Drop> Publisher<B, H, R, J> {
    /// The kept records behind the first `from`, in order, at most so many. At `Lost` the journal takes no more.
    pub fn read(&mut self, from: u64, most: usize) -> Result<Vec<Record>, ReadError>
        ensures read { IfOk result (λ records. WasRead J.Journal B.first H.start self.old.kept
            from most records.items) }
        ensures same { (self.new.list ≡ self.old.list) × (self.new.kept ≡ self.old.kept) × (self.new.published ≡ self.old.published) }
    {
        if self.is_lost {
            return Err(ReadError::Lost);
        }
        let (read, failure) = read_from(&mut self.journal, from, most);
        self.is_lost = says_lost(&read);
        self.failure = failure;
        read
    }
}
