//! What opens a hall, and a change by any thread.
ghost use Rattle.std.specs.Prelude.{◌≡◌, ◌+◌, ◌<◌, [], drop, replicate, true, is_some, List, Err, IfOk, IfSome, OnOk, MatchResult};
ghost use mathlib.Core.List.{IsPrefix};
ghost use Rattle.st_core.specs.Step.{asker_of, asks_for_change};
ghost use Rattle.st_hall_press.specs.Steps.{Ask, state_after};
ghost use Rattle.st_hall_press.specs.Views.{EndsAfter, IsStranger, opening_seat};
ghost use Rattle.st_hall_press.specs.declared.fault.AskFault.TheVariants.{Stranger};
ghost use Rattle.st_hall_press.specs.inner.Editions.{Agrees};

use crate::clerk::Clerk;
use crate::receipt::Receipt;
use left_right::writer::Writer;
use st_core::{Asked, Store};
use st_dir::Directory;
use st_hall_desk::{Desk, EditionReader, Scribe};
use st_hall_press::edition::Edition;
use st_hall_press::front::{Front, begin};
use st_hall_press::queue::EditionWriter;
use st_hall_press::{AskFault, HallFault, HallName, KeptMark, Press, Unnamed, UnnamedFor};
use std::alloc::{AllocError, Global};
use std::marker::PhantomData;
use std::sync::ledger::Share;
use std::sync::{Mutex, Wait};

#[tactic(auto, using(st_hall_press::proofs::Following::after_none))]
// What publishes two copies of a state to so many readers.
fn writer_of<H: HallName>(
    alloc: Global,
    front: &Front<H>,
    both: (Store, Store),
    readers: u16,
) -> Result<EditionWriter<H>, AllocError>
    requires empty { front.now ≡ [] }
    requires alike { (both.0 ≡ H.start) × (both.1 ≡ H.start) }
    requires readers { 0 < readers }
    ensures state { IfOk result (λ writer. writer.desk.shown.value.state ≡ H.start) }
    ensures list { IfOk result (λ writer. writer.desk.shown.value.list ≡ []) }
    ensures queued { IfOk result (λ writer. drop writer.behind writer.log.items ≡ []) }
{
    let first = Edition::new(both.0, front.again());
    let second = Edition::new(both.1, front.again());
    Writer::new(alloc, first, second, readers as usize)
}

// A place for a reader of the published state.
fn place<H: HallName>(writer: &EditionWriter<H>) -> Result<EditionReader<H>, HallFault> {
    match writer.factory().reader() {
        Ok(reader) => Ok(reader),
        Err(_) => Err(HallFault::NoPlace),
    }
}

// A desk at a place of its own.
fn desk_at<H: HallName>(
    writer: &EditionWriter<H>,
    front: &Front<H>,
    share: Share<H>,
) -> Result<Desk<H>, HallFault>
    requires { (share.parts ≡ 1) × (share.amount ≡ 0) }
    ensures { IfOk result (λ desk. desk ≡ opening_seat front.now) }
{
    Ok(Desk::new(place(writer)?, front.again(), share))
}

// Desks at places of their own, one for each part of a share.
fn desks_at<H: HallName>(
    alloc: Global,
    writer: &EditionWriter<H>,
    front: &Front<H>,
    mut share: Share<H>,
    number: u16,
) -> Result<Vec<Desk<H>>, HallFault>
    requires { (share.parts ≡ number) × (share.amount ≡ 0) }
    ensures { IfOk result (λ desks. desks.items ≡ replicate number (opening_seat front.now)) }
{
    let mut desks = Vec::with_capacity(alloc, number as usize)?;
    for _ in 0..number {
        let desk = desk_at(writer, front, share.split_off(1, 0))?;
        desks.push(desk).map_err(|_| AllocError)?;
    }
    Ok(desks)
}

// The users of the published state, and its desks.
fn begun<H: HallName>(
    alloc: Global,
    writer: &EditionWriter<H>,
    front: &Front<H>,
    share: Share<H>,
    number: u16,
) -> Result<(Directory, Vec<Desk<H>>), HallFault>
    requires { (share.parts ≡ number) × (share.amount ≡ 0) }
    ensures directory { IfOk result (λ t. t.0 ≡ writer.now.desk.shown.value.state.directory) }
    ensures desks { IfOk result (λ t. t.1.items ≡ replicate number (opening_seat front.now)) }
{
    let directory = writer.published().store.directory().copy()?;
    match desks_at(alloc, writer, front, share, number) {
        Ok(desks) => Ok((directory, desks)),
        Err(fault) => {
            drop(directory);
            Err(fault)
        }
    }
}

type Begun<H> = (Directory, EditionWriter<H>, Vec<Desk<H>>);

#[tactic(auto, using(st_hall_press::proofs::Following::after_none))]
// The users of a state, what publishes its two copies, and its desks.
fn copies<H: HallName, R: Wait + Drop>(
    rt: &R,
    alloc: Global,
    front: &Front<H>,
    both: (Store, Store),
    share: Share<H>,
    number: u16,
) -> Result<Begun<H>, HallFault>
    requires empty { front.now ≡ [] }
    requires alike { (both.0 ≡ H.start) × (both.1 ≡ H.start) }
    requires share { (share.parts ≡ number) × (share.amount ≡ 0) × (0 < number) }
    ensures directory { IfOk result (λ t. t.0 ≡ H.start.directory) }
    ensures agrees { IfOk result (λ t. Agrees H.start t.1.desk.shown.value) }
    ensures published { IfOk result (λ t. t.1.desk.shown.value.list ≡ []) }
    ensures queued { IfOk result (λ t. drop t.1.behind t.1.log.items ≡ []) }
    ensures desks { IfOk result (λ t. t.2.items ≡ replicate number (opening_seat [])) }
{
    let writer = writer_of::<H>(alloc, front, both, number)?;
    match begun(alloc, &writer, front, share, number) {
        Ok((directory, desks)) => Ok((directory, writer, desks)),
        Err(fault) => {
            drop(writer.take(rt));
            Err(fault)
        }
    }
}

// The two desks of a list of two.
fn two_of<H: HallName>(mut desks: Vec<Desk<H>>) -> (Desk<H>, Desk<H>)
    requires { desks.items ≡ replicate 2 (opening_seat []) }
    ensures one { result.0 ≡ opening_seat [] }
    ensures two { result.1 ≡ opening_seat [] }
{
    let (Some(two), Some(one)) = (desks.pop(), desks.pop()) else {
        unreachable!()
    };
    (one, two)
}

/// The calls of a hall that belong to no value of it.
pub struct Hall<H: HallName> {
    of: PhantomData<H>,
}

impl<H: HallName> Hall<H> {
    /// Opens a hall over two stores of one state, with a desk for each worker. `NoPlace` where a reader's place was refused.
    pub fn open_for<R: Wait + Drop>(
        rt: R,
        alloc: Global,
        name: UnnamedFor,
        first: Store,
        second: Store,
        workers: u16,
    ) -> Result<(Clerk<H, R>, Vec<Desk<H>>), HallFault>
        requires named { (name.seen.book ≡ H.book) × (name.blank.name ≡ H.name) × (name.mark.name ≡ H.mark) }
        requires workers { (name.blank.parts ≡ workers) × (H.parts ≡ workers) × (0 < workers) }
        requires alike { (first ≡ H.start) × (second ≡ H.start) }
        ensures clerk { IfOk result (λ t. (t.0.list ≡ []) × (t.0.published ≡ []) × (t.0.kept ≡ 0)) }
        ensures desks { IfOk result (λ t. t.1.items ≡ replicate workers (opening_seat [])) }
    {
        let UnnamedFor {
            head,
            seen,
            blank,
            mark,
        } = name;
        let (head, front) = begin::<H>(head, seen);
        let (book, share) = blank.open::<H>();
        let (directory, writer, desks) = copies(
            &rt,
            alloc,
            &front,
            (first, second),
            share,
            workers,
        )?;
        let scribe = Scribe::new(head, front.again(), directory, book);
        let press = Press::new(writer, front, rt);
        Ok((Clerk::new(scribe, press, KeptMark::begin(mark)), desks))
    }

    /// Opens a hall over two stores of one state, with two desks. `NoPlace` where a reader's place was refused.
    pub fn open<R: Wait + Drop>(
        rt: R,
        alloc: Global,
        name: Unnamed,
        first: Store,
        second: Store,
    ) -> Result<(Clerk<H, R>, Desk<H>, Desk<H>), HallFault>
        requires named { (name.seen.book ≡ H.book) × (name.blank.name ≡ H.name) × (name.mark.name ≡ H.mark) × (H.parts ≡ 2) }
        requires alike { (first ≡ H.start) × (second ≡ H.start) }
        ensures clerk { IfOk result (λ t. (t.0.list ≡ []) × (t.0.published ≡ []) × (t.0.kept ≡ 0)) }
        ensures desks { IfOk result (λ t. (t.1.seen ≡ []) × (t.1.made ≡ 0) × (t.2.seen ≡ []) × (t.2.made ≡ 0)) }
    {
        let Unnamed {
            head,
            seen,
            blank,
            mark,
        } = name;
        let name = UnnamedFor {
            head,
            seen,
            blank,
            mark,
        };
        let (clerk, desks) = Hall::open_for(rt, alloc, name, first, second, 2)?;
        let (one, two) = two_of(desks);
        Ok((clerk, one, two))
    }

    /// Makes a change in any thread. Its receipt has the list that ends with it, also where it was not published at once. When out of
    /// memory it is not made, nor where its token does not hold.
    pub fn change<W: Wait, R: Wait + Drop>(
        rt: &W,
        clerk: &Mutex<Clerk<H, R>>,
        desk: &mut Desk<H>,
        asked: Asked,
    ) -> Result<Receipt<H>, AskFault>
        requires change { asks_for_change asked ≡ true }
        ensures stranger { result ≡ Err Stranger → IsStranger H.start desk.old.seen asked.token }
        ensures heard { OnOk result ((list : List Ask) × IsPrefix desk.old.seen list
            × (is_some (asker_of (state_after H.start list).directory asked.token) ≡ true)) }
        ensures made { MatchResult result (λ _. desk.new.made ≡ desk.old.made + 1) (λ _. desk.new.made ≡ desk.old.made) }
        ensures seen { desk.new.seen ≡ desk.old.seen }
        ensures asked { IfOk result (λ r. r.asked ≡ asked) }
        ensures reply { IfOk result (λ r. EndsAfter H.start desk.old.seen r.end asked r.reply) }
        ensures front { IfOk result (λ r. IfSome r.front (λ f. f ≡ r.end)) }
    {
        clerk.lock(rt).commit(rt, desk, asked)
    }
}
