//! A copy that follows the store of a server while that serves.
ghost use Rattle.std.specs.Thread.{IsSend, IsSync};
ghost use Rattle.st_server_workers.specs.Working.{Attending};

use st_command_line::ServedArguments;
use st_connection::Attend;
use st_hall::{Front, HallName};
use st_hall_group_commit::{DurableHall, Reading};
use st_journal::{ReadBack, ReadError, Record};
use st_journal_copy::{Copier, CopyFault, RecordSource};
use st_journal_store::Beginning;
use st_server_peer::{Client, Listens};
use st_server_workers::{Attended, Binds, PROGRAM, attend};
use std::alloc::Global;
use std::fs::Files;
use std::io::Eprint;
use std::net::{Net, TcpListener, TcpStream};
use std::sync::{Condvar, CondvarTimeouts, Mutex, Wait};
use std::thread;
use std::thread::Threads;
use std::time::{Clock, Duration};

// What ends the waits of the thread that copies.
#[derive(Drop)]
struct Bell {
    has_rung: Mutex<bool>,
    rings: Condvar,
}

impl Bell {
    // One that has not rung.
    fn new() -> Bell {
        Bell {
            has_rung: Mutex::new(false),
            rings: Condvar::new(),
        }
    }

    // Rings it, once and for all.
    fn ring<R: Wait>(&self, rt: &R) {
        *self.has_rung.lock(rt) = true;
        self.rings.notify_all();
    }

    // Waits until it rings, and so long at most: whether it has rung.
    fn wait<R: Wait + Clock>(&self, rt: &R, longest: Duration) -> bool {
        let guard = self.has_rung.lock(rt);
        let (has_rung, _) = self
            .rings
            .wait_timeout_while(rt, guard, longest, |has_rung| !*has_rung);
        *has_rung
    }
}

// The list that a hall's journal keeps, and as much of it as was kept when it was read last.
#[derive(Drop)]
pub(crate) struct KeptList<
    'a,
    B: Beginning,
    H: HallName,
    C: Wait + Clock + Drop,
    J: ReadBack + Drop,
    R: Wait,
> {
    pub(crate) hall: &'a DurableHall<B, H, C, J>,
    pub(crate) rt: &'a R,
    pub(crate) kept: Front<H>,
}

impl<B: Beginning, H: HallName, C: Wait + Clock + Drop, J: ReadBack + Drop, R: Wait> RecordSource
    for KeptList<'_, B, H, C, J, R> {
    ghost use Rattle.st_server.specs.inner.Reading.{GivesOf};

    // All that is ever read is of beginnings of one list.
    ghost gives = { λ s. GivesOf J.Journal B.first H.start s.kept };

    fn read(&mut self, from: u64, most: usize) -> Result<Vec<Record>, ReadError> {
        let reading = self.hall.read(self.rt, from, most)?;
        let Reading { records, kept } = reading;
        self.kept = self.kept.longer(kept.front());
        Ok(records)
    }
}

// The list of a hall that keeps none: nothing copies it.
#[derive(Drop)]
pub(crate) struct NoList;

impl RecordSource for NoList {
    ghost gives = { λ _ _ _ _. ⊥ };

    fn read(&mut self, _from: u64, _most: usize) -> Result<Vec<Record>, ReadError> {
        Err(ReadError::Lost)
    }
}

// Where a copy stands, what its store was opened with, and what makes it.
#[derive(Drop)]
pub(crate) struct Copying<'a, K> {
    pub(crate) copier: K,
    pub(crate) path: &'a str,
    pub(crate) opening: &'a str,
}

// Reports on standard error when copying begins to fail, and when it works again. Returns whether it is failing.
fn report<R: Eprint>(rt: &R, was_faulty: bool, turn: Result<(), CopyFault>) -> bool {
    match turn {
        Ok(()) => {
            if was_faulty {
                let _told = rt.eprintln(format_args!("{PROGRAM}: copying again"));
            }
            false
        }
        Err(fault) => {
            if !was_faulty {
                let _told = rt.eprintln(format_args!("{PROGRAM}: no copy: {fault}; trying again"));
            }
            true
        }
    }
}

// Takes turns until the bell rings, and a last one then; none more once the store is lost.
fn follow<L: RecordSource + Drop, K: Copier + Drop, R: Wait + Clock + Eprint>(
    rt: &R,
    mut list: L,
    copying: Copying<'_, K>,
    bell: &Bell,
    period: Duration,
) {
    let Copying {
        mut copier,
        path,
        opening,
    } = copying;
    let mut was_faulty = false;
    let mut is_last = false;
    for _ in rt.forever() {
        let turn = copier.take_turn(path, opening, &mut list);
        if let Err(CopyFault::Lost) = turn {
            return;
        }
        was_faulty = report(rt, was_faulty, turn);
        if is_last {
            return;
        }
        is_last = bell.wait(rt, period);
    }
}

// Serves connections as `attend` does, with a copy that follows the list where one is wanted.
pub(crate) fn attend_and_copy<
    T: Attend + Send + Drop,
    C: Client + Send + Drop,
    N: Binds + Listens<Accepted = C> + Sync,
    L: RecordSource + Drop + Send,
    K: Copier + Drop + Send,
    R: Net<Listener = TcpListener, Stream = TcpStream>
        + Files
        + Threads
        + Wait
        + Clock
        + Eprint
        + Sync,
>(
    rt: &R,
    alloc: Global,
    listener: &N,
    said: &ServedArguments<'_>,
    list: L,
    copying: Option<Copying<'_, K>>,
    attendants: Vec<T>,
) -> Attended<T>
    ensures { Attending T.serves C.call attendants.items said.now.connections result }
{
    let Some(copying) = copying else {
        drop(list);
        return attend(rt, alloc, listener, said, attendants);
    };
    let period = said.copy_period();
    let bell = Bell::new();
    let bell = &bell;
    thread::scope(
        thread::scope_env(),
        rt,
        |scope| -> Attended<T>
            requires { IsSync R.row × (IsSend L.row × IsSend K.row) }
            ensures { Attending T.serves C.call attendants.items said.entry.now.connections result }
        {
            let thread = scope.spawn(move || follow(rt, list, copying, bell, period));
            if thread.is_err() {
                let _told = rt.eprintln(format_args!("{PROGRAM}: no copy: no thread"));
            }
            let attended = attend(rt, alloc, listener, said, attendants);
            bell.ring(rt);
            attended
        },
    )
}
