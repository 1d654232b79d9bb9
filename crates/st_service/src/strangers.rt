//! Messages whose token does not hold.
ghost use Rattle.std.specs.Prelude.{◌≡◌, ◌↔◌, ◌<◌, None, is_some, length, IsTrue};
ghost use Rattle.st_policy.specs.declared.denial.Denial.TheVariants.{Token as BadToken};
ghost use Rattle.st_policy.specs.declared.refusal.Refusal.TheVariants.{Denied};
ghost use Rattle.st_policy.specs.declared.reply.Reply.TheVariants.{Refused};
ghost use Rattle.st_core.specs.Step.{asker_of};
ghost use Rattle.st_service.specs.Answers.{RendersOrBusy};
ghost use Rattle.st_service.specs.Bytes.{bytes_of};

use crate::answer::Answer;
use st_core::{Reply, Token};
use st_dir::Directory;
use st_http::message::Message;
use st_policy::{Denial, Refusal};
use std::alloc::{Allocator, Global};

// The length of the longest body, in bytes, that is read before the token is judged, so that the token of a short message is looked
// up once.
const SHORT_BODY: usize = 1_024;

// Whether a token holds.
fn has_asker<A: Allocator>(directory: &Directory<A>, token: &Option<Token>) -> bool
    ensures { result ≡ is_some (asker_of directory.now token.now) }
{
    match token {
        Some(token) => directory.authenticate(token.name.as_str(), &token.digest),
        None => false,
    }
}

/// Whether the body of a message is longer than 1,024 bytes, so that the token is judged before the body is read.
pub fn is_long(message: &Message<'_>) -> bool
    ensures { IsTrue result ↔ (1024 < length message.now.body.now) }
{
    message.body.len() > SHORT_BODY
}

/// Whether a message with this token is refused before its body is read: the token does not hold, and the body is longer than 1,024
/// bytes.
pub fn is_stranger<A: Allocator>(
    directory: &Directory<A>,
    message: &Message<'_>,
    token: &Option<Token>,
) -> bool
    ensures { IsTrue result ↔ (1024 < length message.now.body.now) × (asker_of directory.now token.now ≡ None) }
{
    is_long(message) && !has_asker(directory, token)
}

/// The answer to a message whose token does not hold, whatever its body is. When out of memory it is a 503.
pub fn to_stranger<A: Allocator + Copy>(alloc: A, message: &Message<'_>) -> Answer<A>
    ensures { RendersOrBusy {A = A} (Refused (Denied BadToken)) message.now.close message.now.bare (bytes_of result) }
{
    let told = Ok(Reply::Refused(Refusal::Denied(Denial::Token)));
    let answer = Answer::of(alloc, &told, message.close, message.bare);
    drop(told);
    answer
}
