//! What a change is answered, and what is kept of it.
ghost use Rattle.std.specs.Prelude.{◌≡◌, true, IfOk, IfSome};
ghost use Rattle.std.specs.declared.alloc.Global.{Global as Heap};
ghost use Rattle.st_dir.specs.Directory.{Directory};
ghost use Rattle.st_core.specs.State.{State};
ghost use Rattle.st_core.specs.Judging.{JudgesChange, judgement};
ghost use Rattle.st_core.specs.Step.{asks_for_change, judge as judge_by, settle, step};
ghost use Rattle.st_service.specs.Answers.{AsksBy, IsFound};
ghost use Rattle.st_journal_store.specs.Applying.{Notes};
ghost use Rattle.st_journal_store.specs.Keeping.{state_with};
ghost use Rattle.st_journal_store.specs.inner.Sound.{IsNoted};

use crate::noted::noted;
use crate::pending::Pending;
use st_core::{Asked, JudgedRef, Reply, Store, judge};
use st_http::message::Message;
use st_journal::Record;
use std::alloc::{AllocError, Global};
use std::time::Clock;

// The reply to a change that was judged so.
fn reply_of(judged: &JudgedRef<'_>) -> Reply
    ensures { (s : State Heap) → JudgesChange s.directory (judgement judged.now) → result ≡ (settle s (judgement judged.now)).reply }
{
    match judged {
        JudgedRef::Unheard(refusal) => Reply::Refused(refusal.copy()),
        JudgedRef::Heard {
            refusal: Some(refusal),
            ..
        } => Reply::Refused(refusal.copy()),
        JudgedRef::Heard { refusal: None, .. } => Reply::Accepted,
    }
}

/// The record of the change that a message asks for, by its judgement and its reply. `None` if it is `Unheard`, which changes nothing.
pub fn note<C: Clock>(
    alloc: Global,
    clock: &C,
    message: &Message<'_>,
    asked: &Asked,
    judged: &JudgedRef<'_>,
    reply: &Reply,
) -> Result<Option<Record>, AllocError>
    requires is_found { IsFound message.now }
    requires asks { AsksBy message.now asked.now }
    requires change { asks_for_change asked.now ≡ true }
    ensures { IfOk result (λ note. (d : Directory Heap) → judgement judged.now ≡ judge_by d asked.now → Notes d asked.now note) }
{
    match judged {
        JudgedRef::Unheard(_) => Ok(None),
        JudgedRef::Heard { asker, .. } => {
            let note = noted(alloc, clock, message, asker.as_str(), reply)?;
            Ok(Some(note))
        }
    }
}

// What the change that a message asks is answered in this state, and what is to be kept; none where it is not heard, which changes
// nothing.
pub(crate) fn judged<C: Clock>(
    alloc: Global,
    clock: &C,
    store: &Store,
    message: &Message<'_>,
    asked: &Asked,
) -> Result<(Reply, Option<Pending>), AllocError>
    requires is_found { IsFound message.now }
    requires asks { AsksBy message.now asked.now }
    requires change { asks_for_change asked.now ≡ true }
    ensures reply { IfOk result (λ both. both.0 ≡ (step store.now asked.now).reply) }
    ensures state { IfOk result (λ both. state_with store.now both.1 ≡ (step store.now asked.now).state) }
    ensures noted { IfOk result (λ both. IfSome both.1 (IsNoted store.now)) }
{
    let judged = judge(store.directory(), asked);
    let reply = reply_of(&judged);
    let Some(note) = note(alloc, clock, message, asked, &judged, &reply)? else {
        return Ok((reply, None));
    };
    let judged = judged.to_owned()?;
    Ok((reply, Some(Pending { note, judged })))
}
