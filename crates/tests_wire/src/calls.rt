//! Calls that no connection makes: of one message, and of a list of requests.

use crate::opened::{opened, store};
use crate::texts::{INPUT, ZERO};
use st_core::{Asked, Call, Refusal, run};
use st_http::message::{Message, Take};
use st_http::routes::Routes;
use std::alloc::{Allocator, Global};

// Whether a fresh service answers a message by this text.
fn is_answer<A: Allocator + Copy>(
    global: Global,
    alloc: A,
    message: &Message<'_>,
    answer: &str,
) -> Option<bool> {
    let mut service = opened(global, alloc)?;
    let told = service.reply_to(message);
    let is_told = told.as_bytes() == answer.as_bytes();
    drop(service);
    Some(is_told)
}

// Whether it so answers the first message of the input.
fn is_first_answer<A: Allocator + Copy>(global: Global, alloc: A, answer: &str) -> Option<bool> {
    let routes = Routes::new(global).ok()?;
    let told = match routes.take(INPUT) {
        Take::Message(message, _) => is_answer(global, alloc, &message, answer),
        _ => None,
    };
    drop(routes);
    told
}

#[test]
fn replies_to_a_message(rt: HostRuntime) {
    assert!(rt; is_first_answer(rt.alloc(), rt.alloc(), ZERO) == Some(true));
}

// How many replies a fresh store gives to these requests.
fn replies<A: Allocator + Copy>(alloc: A, asked: &[Asked<A>]) -> Option<usize> {
    let mut store = store(alloc)?;
    let replies = run(&mut store, asked);
    drop(store);
    Some(replies.ok()?.len())
}

// How many it gives to one.
fn replies_to_one(alloc: Global) -> Option<usize> {
    let asked: [Asked; 1] = [Asked {
        token: None,
        call: Call::Bad(Refusal::BadBox),
    }];
    let count = replies(alloc, &asked);
    drop(asked);
    count
}

#[test]
fn a_run_replies(rt: HostRuntime) {
    assert!(rt; replies_to_one(rt.alloc()) == Some(1));
}
