//! What is asked, judged by a directory.
ghost use Rattle.std.specs.Prelude.{◌≡◌, option_map, IfOk};
ghost use Rattle.st_policy.specs.Policy.{refusal_of};
ghost use Rattle.st_core.specs.Judging.{judgement};
ghost use Rattle.st_core.specs.Step.{asker_of, judge};

use crate::asked::{Asked, Call, Token};
use st_dir::{Directory, Name};
use st_policy::{Denial, Refusal, Request, decide};
use std::alloc::{AllocError, Allocator, Global};

/// What is asked, judged: not heard, with the refusal; or a user's request, with the policy's refusal where there is one. It holds
/// no token, so it can be queued or stored.
#[derive(Drop)]
pub enum Judged<A: Allocator = Global> {
    Unheard(Refusal),
    Heard {
        asker: Name,
        request: Request<A>,
        refusal: Option<Refusal>,
    },
}

/// A judgement that borrows what was asked.
#[derive(Drop)]
pub enum JudgedRef<'a, A: Allocator = Global> {
    Unheard(Refusal),
    Heard {
        asker: &'a Name,
        request: &'a Request<A>,
        refusal: Option<Refusal>,
    },
}

// The user of a valid token.
fn asker<'a, A: Allocator>(directory: &Directory<A>, token: &'a Option<Token>) -> Option<&'a Name>
    ensures { option_map (λ name. name.now) result ≡ asker_of directory.now token.now }
{
    match token {
        Some(token) => {
            if directory.authenticate(token.name.as_str(), &token.digest) {
                Some(&token.name)
            } else {
                None
            }
        }
        None => None,
    }
}

// The policy's refusal, where there is one.
pub(crate) fn refusal<A: Allocator>(
    directory: &Directory<A>,
    asker: &Name,
    request: &Request<A>,
) -> Option<Refusal>
    ensures { result ≡ refusal_of directory.now asker.now request.now }
{
    match decide(directory, asker, request) {
        Ok(()) => None,
        Err(refusal) => Some(refusal),
    }
}

// An equal refusal, where there is one.
fn copy_refusal(refusal: &Option<Refusal>) -> Option<Refusal>
    ensures { result ≡ refusal.now }
{
    match refusal {
        Some(refusal) => Some(refusal.copy()),
        None => None,
    }
}

/// Judges what is asked by a directory: the token first, then whether the call could be decoded, then the policy.
pub fn judge<'a, A: Allocator>(directory: &Directory<A>, asked: &'a Asked<A>) -> JudgedRef<'a, A>
    ensures { judgement result ≡ judge directory.now asked.now }
{
    let Some(asker) = asker(directory, &asked.token) else {
        return JudgedRef::Unheard(Refusal::Denied(Denial::Token));
    };
    match &asked.call {
        Call::Good(request) => JudgedRef::Heard {
            asker,
            request,
            refusal: refusal(directory, asker, request),
        },
        Call::Bad(refusal) => JudgedRef::Unheard(refusal.copy()),
    }
}

impl<'a, A: Allocator + Copy> JudgedRef<'a, A> {
    /// The same judgement, which borrows nothing. An error where there is no memory for it.
    pub fn to_owned(&self) -> Result<Judged<A>, AllocError>
        ensures { IfOk result (λ judged. judged ≡ judgement self.now) }
    {
        Ok(match self {
            JudgedRef::Unheard(refusal) => Judged::Unheard(refusal.copy()),
            JudgedRef::Heard {
                asker,
                request,
                refusal,
            } => Judged::Heard {
                request: request.copy()?,
                asker: asker.copy(),
                refusal: copy_refusal(refusal),
            },
        })
    }
}

impl<A: Allocator> Judged<A> {
    /// The same judgement, borrowed.
    pub fn as_ref(&self) -> JudgedRef<'_, A>
        ensures { judgement result ≡ self.now }
    {
        match self {
            Judged::Unheard(refusal) => JudgedRef::Unheard(refusal.copy()),
            Judged::Heard {
                asker,
                request,
                refusal,
            } => JudgedRef::Heard {
                asker,
                request,
                refusal: copy_refusal(refusal),
            },
        }
    }
}
