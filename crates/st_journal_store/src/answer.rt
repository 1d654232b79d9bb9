//! What a message is answered by a store, and the change that it asks.
ghost use Rattle.std.specs.Prelude.{◌≡◌, IfOk, IfSome};
ghost use Rattle.st_core.specs.Step.{step};
ghost use Rattle.st_service.specs.Answers.{AsksBy, IsFound, RepliesTo};
ghost use Rattle.st_service.specs.Bytes.{bytes_of};
ghost use Rattle.st_journal_store.specs.Keeping.{state_with};
ghost use Rattle.st_journal_store.specs.inner.Sound.{IsNoted};

use crate::judged::judged;
use crate::pending::Pending;
use st_core::{Asked, Reply, Store};
use st_http::message::Message;
use st_service::{Answer, asked_of};
use std::alloc::{AllocError, Global};
use std::time::Clock;

// The reply to a request, and its change, which is still to be synced; `None` if it asks for no change or is `Unheard`.
fn ask<C: Clock>(
    alloc: Global,
    clock: &C,
    store: &Store,
    message: &Message<'_>,
    asked: &Asked,
) -> Result<(Reply, Option<Pending>), AllocError>
    requires is_found { IsFound message.now }
    requires asks { AsksBy message.now asked.now }
    ensures reply { IfOk result (λ both. both.0 ≡ (step store.now asked.now).reply) }
    ensures state { IfOk result (λ both. state_with store.now both.1 ≡ (step store.now asked.now).state) }
    ensures noted { IfOk result (λ both. IfSome both.1 (IsNoted store.now)) }
{
    if !asked.is_change() {
        let reply = store.answer(asked)?;
        return Ok((reply, None));
    }
    judged(alloc, clock, store, message, asked)
}

// The answer to a message whose route is an endpoint, and the change that it asks, until that is kept.
pub(crate) fn answer<C: Clock>(
    alloc: Global,
    clock: &C,
    store: &Store,
    message: &Message<'_>,
) -> (Answer, Option<Pending>)
    requires { IsFound message.now }
    ensures told { RepliesTo store.now message.now (bytes_of result.0) (state_with store.now result.1) }
    ensures noted { IfSome result.1 (IsNoted store.now) }
{
    let close = message.close;
    let bare = message.bare;
    let Ok(asked) = asked_of(alloc, alloc, message) else {
        return (Answer::Busy { close, bare }, None);
    };
    let Ok((reply, pending)) = ask(alloc, clock, store, message, &asked) else {
        return (Answer::Busy { close, bare }, None);
    };
    let told = Ok(reply);
    let answer = Answer::of(alloc, &told, close, bare);
    drop(told);
    (answer, pending)
}
