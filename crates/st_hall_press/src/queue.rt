//! The queue of changes that the copies have not absorbed yet.
ghost use Rattle.std.specs.Prelude.{◌≡◌, ◌^◌, ◌<◌, [], ◌∷◌, ◌++◌, drop, fold, length, true, Some, IfOk, OnOk, MatchResult};
ghost use Rattle.st_core.specs.Judging.{judgement};
ghost use Rattle.st_core.specs.Step.{asks_for_change};
ghost use Rattle.st_hall_press.specs.Steps.{judged_in, state_after};
ghost use Rattle.st_hall_press.specs.Views.{IsNext};
ghost use Rattle.st_hall_press.specs.inner.Editions.{Agrees, Publishes, Queues, absorbed};

use crate::edition::{Agreeing, Consistent, Edition, Queued};
use crate::front::Front;
use crate::history::Head;
use crate::name::HallName;
use left_right::writer::Writer;
use st_core::{Asked, JudgedRef};
use std::alloc::AllocError;
use std::sync::Wait;

// The history takes no more changes than this.
const MOST: u64 = 1 << 61;

/// What publishes two copies of a store, each with the list of its changes.
pub type EditionWriter<H> = Writer<Edition<H>, Queued<H>, (), Consistent<H>>;

/// Lets a change wait.
pub fn hold<H: HallName>(waiting: &mut Option<Queued<H>>, queued: Queued<H>)
    ensures { waiting.new ≡ Some queued }
{
    drop(waiting.replace(queued));
}

/// Queues what waits.
pub fn queue<H: HallName>(
    writer: &mut EditionWriter<H>,
    waiting: &mut Option<Queued<H>>,
) -> Result<(), AllocError>
    ensures desk { writer.new.desk ≡ writer.old.desk }
    ensures queued { Queues result (drop writer.old.behind writer.old.log.items) (drop writer.new.behind writer.new.log.items)
        waiting.old waiting.new }
{
    let Some(queued) = waiting.take() else {
        return Ok(());
    };
    match writer.append(queued) {
        Ok(()) => Ok(()),
        Err(queued) => {
            hold(waiting, queued);
            Err(AllocError)
        }
    }
}

// A change for the queue, added to the history after all that a front has seen. An error where the history is longer.
fn queued_of<H: HallName>(
    head: &Head<H>,
    front: &Front<H>,
    asked: &Asked,
    judged: &JudgedRef,
) -> Result<Queued<H>, AllocError>
    requires change { asks_for_change asked.now ≡ true }
    requires judged { judgement judged.now ≡ judged_in (state_after H.start front.now) asked.now }
    ensures room { OnOk result (length front.now < 2 ^ 61) }
    ensures list { IfOk result (λ queued. queued.list ≡ front.now ++ asked.now ∷ []) }
    ensures next { IfOk result (λ queued. IsNext H.start front.now queued) }
{
    if front.len() >= MOST {
        return Err(AllocError);
    }
    let judged = judged.to_owned()?;
    let mut longer = front.again();
    if longer.add(head, asked) {
        Ok(Queued::new(judged, longer))
    } else {
        drop(judged);
        Err(AllocError)
    }
}

/// Adds a judged change to the list, and gives it for the queue.
pub fn enter<H: HallName>(
    head: &Head<H>,
    front: &mut Front<H>,
    asked: &Asked,
    judged: &JudgedRef,
) -> Result<Queued<H>, AllocError>
    requires change { asks_for_change asked.now ≡ true }
    requires judged { judgement judged.now ≡ judged_in (state_after H.start front.old) asked.now }
    ensures room { OnOk result (length front.old < 2 ^ 61) }
    ensures list { MatchResult result (λ _. front.new ≡ front.old ++ asked.now ∷ []) (λ _. front.new ≡ front.old) }
    ensures next { IfOk result (λ queued. IsNext H.start front.old queued) }
    ensures ends { IfOk result (λ queued. queued.list ≡ front.new) }
{
    let queued = queued_of(head, front, asked, judged)?;
    *front = queued.front().again();
    Ok(queued)
}

/// Publishes what is queued.
pub fn publish_queued<H: HallName, R: Wait>(
    writer: EditionWriter<H>,
    rt: &R,
) -> (EditionWriter<H>, Result<(), AllocError>)
    requires { Agrees H.start (fold absorbed writer.desk.shown.value (drop writer.behind writer.log.items)) }
    ensures { Publishes result.1 writer.desk.shown.value result.0.desk.shown.value
        (drop writer.behind writer.log.items) (drop result.0.behind result.0.log.items) }
{
    writer.publish_as::<Agreeing<H>, R>(rt)
}
