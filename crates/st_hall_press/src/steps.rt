//! What is asked of a copy, and of the clerk's directory.
ghost use Rattle.std.specs.Prelude.{◌≡◌, true, false, None, is_some, unwrap_or, Err, IfOk, OnOk, OnErr};
ghost use Rattle.std.specs.declared.alloc.Global.{Global};
ghost use Rattle.st_dir.specs.Directory.{Directory as Users};
ghost use Rattle.st_core.specs.Step.{asker_of, asks_for_change, judge as judge_by};
ghost use Rattle.st_core.specs.Judging.{JudgesChange, judgement};
ghost use Rattle.st_hall_press.specs.Steps.{Ask, HallState, judged_in, next, reply_of, settled};
ghost use Rattle.st_hall_press.specs.declared.fault.AskFault.TheVariants.{Stranger};

use crate::fault::AskFault;
use st_core::{Asked, Decision, Judged, JudgedRef, Reply, Store, judge};
use st_dir::Directory;
use std::alloc::AllocError;

#[tactic(auto, unfolding(crate::specs::Steps::settled))]
/// Makes what a judged change comes to on one copy, or leaves it when out of memory.
pub fn make(store: &mut Store, judged: &Judged) -> Result<(), AllocError>
    requires { JudgesChange store.old.directory judged.now }
    ensures ok { OnOk result (store.new ≡ settled store.old judged.now) }
    ensures err { OnErr result (store.new ≡ store.old) }
{
    drop(store.settle(judged.as_ref())?);
    Ok(())
}

#[tactic(auto, unfolding(crate::specs::Steps::reply_of))]
/// What a copy answers to a read.
pub fn answer(store: &Store, asked: &Asked) -> Result<Reply, AllocError>
    requires { asks_for_change asked.now ≡ false }
    ensures { IfOk result (λ reply. reply ≡ reply_of store.now asked.now) }
{
    store.answer(asked)
}

// Whether a judged change is heard, which is where its token holds.
fn is_heard(judged: &JudgedRef) -> bool
    ensures { (d : Users Global) (asked : Ask) → asks_for_change asked ≡ true → judgement judged.now ≡ judge_by d asked
        → result ≡ is_some (asker_of d asked.token) }
{
    match judged {
        JudgedRef::Unheard(_) => false,
        JudgedRef::Heard { .. } => true,
    }
}

#[tactic(auto, unfolding(crate::specs::Steps::judged_in, crate::specs::Steps::reply_of, crate::specs::Steps::next))]
/// How a directory judges a change, what it is told, and the directory after it where that is another; or that its token does not
/// hold there.
pub fn decide<'a>(
    directory: &Directory,
    asked: &'a Asked,
) -> Result<(JudgedRef<'a>, Decision), AskFault>
    requires { asks_for_change asked.now ≡ true }
    ensures stranger { result ≡ Err Stranger → asker_of directory.now asked.now.token ≡ None }
    ensures heard { OnOk result (is_some (asker_of directory.now asked.now.token) ≡ true) }
    ensures judged { IfOk result (λ d. (s : HallState) → s.directory ≡ directory.now → judgement d.0 ≡ judged_in s asked.now) }
    ensures reply { IfOk result (λ d. (s : HallState) → s.directory ≡ directory.now → d.1.reply ≡ reply_of s asked.now) }
    ensures directory { IfOk result (λ d. (s : HallState) → s.directory ≡ directory.now
        → unwrap_or d.1.directory directory.now ≡ (next s asked.now).directory) }
{
    let judged = judge(directory, asked);
    if !is_heard(&judged) {
        drop(judged);
        return Err(AskFault::Stranger);
    }
    match Decision::of(directory, &judged) {
        Ok(decision) => Ok((judged, decision)),
        Err(fault) => {
            drop(judged);
            Err(fault.into())
        }
    }
}

/// Puts a directory in the place of another, where there is one.
pub fn replace(directory: &mut Directory, next: Option<Directory>)
    ensures { directory.new ≡ unwrap_or next directory.old }
{
    if let Some(next) = next {
        *directory = next;
    }
}
