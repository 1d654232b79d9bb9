//! What changes come to, by the directory alone.
ghost use Rattle.std.specs.Prelude.{◌≡◌, None, true, IfOk, unwrap_or};
ghost use Rattle.st_text.specs.Texts.{Text};
ghost use Rattle.st_dir.specs.Directory.{Directory as Lists, is_user};
ghost use Rattle.st_policy.specs.Policy.{refusal_of};
ghost use Rattle.st_core.specs.Changes.{directory_after};
ghost use Rattle.st_core.specs.State.{State};
ghost use Rattle.st_core.specs.Judging.{JudgesChange, judgement};
ghost use Rattle.st_core.specs.Step.{settle};

use crate::judged::JudgedRef;
use crate::store::changing::change_directory;
use st_dir::{Directory, Name};
use st_policy::{Reply, Request};
use std::alloc::{AllocError, Allocator, Global};

/// What a change replies, and the directory after it where that is another.
#[derive(Drop)]
pub struct Decision<A: Allocator = Global> {
    pub reply: Reply<A>,
    pub directory: Option<Directory<A>>,
}

// A decision that leaves the directory.
fn reply_only<A: Allocator>(reply: Reply<A>) -> Decision<A>
    ensures { result ≡ record { reply = reply; directory = None } }
{
    Decision {
        reply,
        directory: None,
    }
}

// Whether a change is about rows alone, and leaves the directory.
fn is_of_rows<A: Allocator>(request: &Request<A>) -> bool
    ensures { result ≡ true → (asker : Text) → (d : Lists A) → directory_after asker request.now d ≡ d }
{
    matches!(request, Request::Put { .. } | Request::Delete { .. })
}

// The directory that an allowed change leaves, where that is another.
fn changed<A: Allocator + Copy>(
    directory: &Directory<A>,
    asker: &Name,
    request: &Request<A>,
) -> Result<Option<Directory<A>>, AllocError>
    requires known { is_user directory.now asker.now ≡ true }
    requires allowed { refusal_of directory.now asker.now request.now ≡ None }
    ensures { IfOk result (λ next. unwrap_or next directory.now ≡ directory_after asker.now request.now directory.now) }
{
    if is_of_rows(request) {
        return Ok(None);
    }
    let mut next = directory.copy()?;
    match change_directory(&mut next, asker, request) {
        Ok(()) => Ok(Some(next)),
        Err(fault) => {
            drop(next);
            Err(fault)
        }
    }
}

impl<A: Allocator + Copy> Decision<A> {
    /// What a change that was judged by a directory comes to: what each state with this directory replies, and the directory that
    /// it leaves. Changes of rows and refused changes take no memory.
    pub fn of(directory: &Directory<A>, judged: &JudgedRef<A>) -> Result<Decision<A>, AllocError>
        requires { JudgesChange directory.now (judgement judged.now) }
        ensures reply { IfOk result (λ decision. (s : State A) → decision.reply ≡ (settle s (judgement judged.now)).reply) }
        ensures directory { IfOk result (λ decision. (s : State A) → s.directory ≡ directory.now
            → unwrap_or decision.directory directory.now ≡ (settle s (judgement judged.now)).state.directory) }
    {
        match judged {
            JudgedRef::Unheard(refusal) => Ok(reply_only(Reply::Refused(refusal.copy()))),
            JudgedRef::Heard {
                refusal: Some(refusal),
                ..
            } => Ok(reply_only(Reply::Refused(refusal.copy()))),
            JudgedRef::Heard {
                asker,
                request,
                refusal: None,
            } => Ok(Decision {
                directory: changed(directory, asker, request)?,
                reply: Reply::Accepted,
            }),
        }
    }
}
