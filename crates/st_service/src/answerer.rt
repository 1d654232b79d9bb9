//! What answers messages by a store.
ghost use Rattle.std.specs.Prelude.{◌≡◌, false, option_map, refl};
ghost use Rattle.st_core.specs.State.{State};
ghost use Rattle.st_service.specs.Answers.{Answers, AsksBy, IsFound, RepliesTo, StateAnswers, token_from, token_in};
ghost use Rattle.st_service.specs.Bytes.{bytes_of};
ghost use Rattle.st_service.specs.inner.Represented.{is_replied};

use crate::answer::Answer;
use crate::asked::{asked_with, token_of};
use crate::strangers::{is_stranger, to_stranger};
use st_connection::Failed;
use st_connection::replies::Replies;
use st_core::{Asked, Store, Token};
use st_http::message::Message;
use std::alloc::{Allocator, Global};
use std::marker::Model;

// A store, and the allocators for requests and answers.
#[derive(Drop)]
pub(crate) struct Answerer<A: Allocator + Copy = Global> {
    alloc: A,
    global: Global,
    store: Store<A>,
}

impl<A: Allocator + Copy> Model for Answerer<A> {
    ghost use Rattle.st_core.specs.State.{State};

    ghost Value = { State A };

    ghost view = { λ d. d.store };
}

impl<A: Allocator + Copy> Answerer<A> {
    pub(crate) fn new(alloc: A, global: Global, store: Store<A>) -> Answerer<A>
        ensures { result ≡ store }
    {
        Answerer {
            alloc,
            global,
            store,
        }
    }

    // Takes the step that a message asks, and answers with its reply.
    fn answer_step(&mut self, message: &Message<'_>, asked: &Asked<A>) -> Answer<A>
        requires found { IsFound message.now }
        requires asks { AsksBy message.now asked.now }
        ensures { RepliesTo self.old message.now (bytes_of result) self.new }
    {
        let told = self.store.step(asked);
        let answer = Answer::of(self.alloc, &told, message.close, message.bare);
        drop(told);
        answer
    }

    // Answers a message whose route is an endpoint, by what it asks.
    fn answer_asked(&mut self, message: &Message<'_>, token: Option<Token>) -> Answer<A>
        requires found { IsFound message.now }
        requires token { token ≡ option_map token_from (token_in message.now) }
        ensures { RepliesTo self.old message.now (bytes_of result) self.new }
    {
        let Ok(asked) = asked_with(self.alloc, self.global, message, token) else {
            return Answer::Busy {
                close: message.close,
                bare: message.bare,
            };
        };
        let answer = self.answer_step(message, &asked);
        drop(asked);
        answer
    }

    // Answers a message whose route is an endpoint.
    fn answer(&mut self, message: &Message<'_>) -> Answer<A>
        requires { IsFound message.now }
        ensures { RepliesTo self.old message.now (bytes_of result) self.new }
    {
        let token = token_of(message);
        if is_stranger(self.store.directory(), message, &token) {
            to_stranger(self.alloc, message)
        } else {
            self.answer_asked(message, token)
        }
    }
}

impl<A: Allocator + Copy> Replies for Answerer<A> {
    type Reply = Answer<A>;

    ghost State = { State A };

    ghost now = { λ d. d };

    ghost kept = { λ d. d };

    ghost has_failed = { λ _. false };

    ghost answers = { Answers };

    ghost replies = { RepliesTo };

    ghost replied = { is_replied (StateAnswers {A = A}) };

    ghost faults = { λ s reason bare. (refl, refl) };

    fn reply(&mut self, message: &Message<'_>) -> Answer<A> {
        match Answer::of_unrouted(self.alloc, message) {
            Some(answer) => answer,
            None => self.answer(message),
        }
    }

    fn sync(&mut self) -> Result<(), Failed> {
        Ok(())
    }
}
