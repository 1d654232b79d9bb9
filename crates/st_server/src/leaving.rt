//! What the stations of a hall leave, once they serve no more.
ghost use Rattle.std.specs.Prelude.{◌≡◌, ◌<◌, All, IfOk, length, map};
ghost use mathlib.Core.List.{IsPrefix};
ghost use Rattle.st_server.specs.Attending.{HaveOneList, desk_of, synced_of};

use st_hall::law::{longest_kept, one_list};
use st_hall::{Commits, Desk, Front, HallName, KeptFront};
use st_server_workers::Worked;
use std::alloc::{AllocError, Global};
use std::sync::Wait;

// What serves at a desk of a hall, and gives the desk back.
pub(crate) trait AtDesk<H: HallName> {
    ghost use Rattle.st_hall.specs.Decisions.{Standing};

    // How it stands.
    ghost standing: { Self → Standing };

    // The desk, and what had been seen there at its last sync, which is kept.
    fn apart(self) -> (Desk<H>, KeptFront<H>)
        ensures desk { result.0 ≡ (standing self).post.seat }
        ensures synced { result.1 ≡ (standing self).synced.seat.seen };
}

// The desks of the workers, and what had been seen there at the workers' last sync.
fn desks_of<H: HallName, T: AtDesk<H> + Drop>(
    alloc: Global,
    workers: Vec<Worked<T>>,
) -> Result<(Vec<Desk<H>>, Vec<KeptFront<H>>), AllocError>
    ensures desks { IfOk result (λ both. both.0.items ≡ map (desk_of T.standing) workers.items) }
    ensures synced { IfOk result (λ both. both.1.items ≡ map (synced_of T.standing) workers.items) }
{
    let mut desks = Vec::with_capacity(alloc, workers.len())?;
    let mut synced = Vec::with_capacity(alloc, workers.len())?;
    for worker in workers {
        let Worked { attendant, .. } = worker;
        let (desk, seen) = attendant.apart();
        desks.push(desk).map_err(|_| AllocError)?;
        synced.push(seen).map_err(|_| AllocError)?;
    }
    Ok((desks, synced))
}

// What has been seen at the desks.
fn fronts_of<H: HallName>(alloc: Global, desks: &[Desk<H>]) -> Result<Vec<Front<H>>, AllocError>
    ensures { IfOk result (λ fronts. fronts.items ≡ map (λ desk. desk.seen) desks.now) }
{
    let mut fronts = Vec::with_capacity(alloc, desks.len())?;
    for desk in desks {
        fronts.push(desk.front()).map_err(|_| AllocError)?;
    }
    Ok(fronts)
}

// The one list of all that was seen at the desks, and what had been seen there at the workers' last sync.
#[derive(Drop)]
pub(crate) struct Joined<H: HallName> {
    pub(crate) list: Front<H>,
    pub(crate) synced: Vec<KeptFront<H>>,
}

// Takes the desks back. The list is as long as changes were counted there. That it is not so never comes.
pub(crate) fn join_lists<H: HallName, M: Commits<H>, T: AtDesk<H> + Drop, W: Wait>(
    rt: &W,
    alloc: Global,
    hall: &M,
    workers: Vec<Worked<T>>,
) -> Result<Joined<H>, AllocError>
    requires { (length workers.items ≡ H.parts) × (0 < H.parts) }
    ensures one { IfOk result (λ joined. HaveOneList T.standing workers.items joined.list) }
    ensures synced { IfOk result (λ joined. joined.synced.items ≡ map (synced_of T.standing) workers.items) }
{
    let both = desks_of(alloc, workers)?;
    let (mut desks, synced) = both;
    let still = desks.as_slice();
    let fronts = fronts_of(alloc, still)?;
    let list = hall.whole(rt, &mut desks);
    let seen = fronts.as_slice();
    let longest = one_list(&list, seen);
    if longest.len() == list.len() {
        Ok(Joined { list, synced })
    } else {
        Err(AllocError)
    }
}

// What is kept of the list: all that was seen at the workers' last sync, and what else is known to be. That some change is
// not in the list never comes.
pub(crate) fn kept_of<H: HallName, M: Commits<H>, W: Wait>(
    rt: &W,
    hall: &M,
    joined: &Joined<H>,
    known: &KeptFront<H>,
) -> Result<Front<H>, AllocError>
    ensures leaves { IfOk result (λ kept. M.leaves kept joined.now.list) }
    ensures begins { IfOk result (λ kept. IsPrefix kept joined.now.list) }
    ensures known { IfOk result (λ kept. IsPrefix known.now kept) }
    ensures has { IfOk result (λ kept. All (λ front. IsPrefix front kept) joined.now.synced.items) }
{
    let synced = joined.synced.as_slice();
    let longest = longest_kept(known, synced);
    match hall.left(rt, &joined.list, &longest) {
        Some(kept) => Ok(kept),
        None => Err(AllocError),
    }
}
