//! Halls in memory that are opened for what is asked in them.
ghost use Rattle.std.specs.Prelude.{◌≡◌, ◌<◌};

use crate::calls::are_calls;
use crate::clerks::{Shared, Way};
use crate::desks::are_listed_once;
use crate::halls::stores;
use crate::pending::are_published_together;
use crate::strangers::is_in_no_list;
use crate::taken_back::{is_answered, is_made};
use crate::workers::are_served_meanwhile;
use st_core::Store;
use st_hall::{Commits, Desk, Hall, HallName, UnnamedFor};
use std::alloc::Global;
use std::marker::Brand;
use std::sync::{Mutex, Wait};
use std::thread::Threads;
use std::time::Clock;

/// What is asked in a hall. One function opens halls for all that is asked, since each call of it that names types is dear to prove.
#[derive(Clone, Copy)]
pub enum Question {
    /// Whether each message is a call, at a gate that lets reads pass or does not.
    Calls(bool),
    /// Whether changes are pending until one is published.
    Pending,
    /// Whether puts are listed once, of rows of each desk's own or not.
    Puts(bool),
    /// Whether two reads are answered while the clerk is held.
    Reads,
    /// Whether a stranger is refused and in no list.
    Stranger,
    /// Whether a user is made in this way.
    User(Way),
    /// Whether a user is made by a message.
    Message,
}

// Whether it is as it should be at these desks.
fn is_so<
    H: HallName + Send + Sync,
    M: Commits<H> + Shared<H> + Sync,
    R: Threads + Wait + Clock + Sync,
>(rt: &R, alloc: Global, hall: &M, mut desks: Vec<Desk<H>>, question: Question) -> Option<bool> {
    let mut desk = desks.pop()?;
    match question {
        Question::Calls(opens) => are_calls(rt, alloc, hall, desk, opens),
        Question::Pending => are_published_together(rt, alloc, hall, &mut desk, desks.first_mut()?),
        Question::Puts(is_own) => are_listed_once(rt, alloc, hall, desk, desks, is_own),
        Question::Reads => are_served_meanwhile(rt, alloc, hall, desks),
        Question::Stranger => is_in_no_list(rt, alloc, hall, desk),
        Question::User(way) => is_made(rt, alloc, hall, &mut desk, way),
        Question::Message => is_answered(rt, alloc, hall, desk),
    }
}

// The same in a new hall.
fn is_so_in<H: HallName + Send + Sync, R: Threads + Wait + Clock + Sync>(
    rt: &R,
    alloc: Global,
    name: UnnamedFor,
    both: (Store, Store),
    workers: u16,
    question: Question,
) -> Option<bool>
    requires named { (name.seen.book ≡ H.book) × (name.blank.name ≡ H.name) × (name.mark.name ≡ H.mark) }
    requires workers { (name.blank.parts ≡ workers) × (H.parts ≡ workers) × (0 < workers) }
    requires alike { (both.0 ≡ H.start) × (both.1 ≡ H.start) }
{
    let (clerk, desks) = Hall::<H>::open_for(rt, alloc, name, both.0, both.1, workers).ok()?;
    let clerk = Mutex::new(clerk);
    let found = is_so(rt, alloc, &clerk, desks, question);
    drop(clerk);
    found
}

/// Whether it is as it should be in a hall with so many desks.
pub fn is_right<R: Threads + Wait + Clock + Sync>(
    rt: &R,
    alloc: Global,
    workers: u16,
    question: Question,
) -> bool
    requires { 0 < workers }
{
    let Some(both) = stores(alloc) else {
        return false;
    };
    let name = UnnamedFor::of(workers);
    is_so_in::<Brand, _>(rt, alloc, name, both, workers, question) == Some(true)
}
