//! Runs of requests.
ghost use Rattle.std.specs.Prelude.{◌≡◌, ◌<◌, ◌≤◌, ◌⊎◌, ◌∷◌, ◌++◌, [], length, take, IfOk, OnOk, OnErr, ℕ};
ghost use Rattle.std.specs.Vec.{vec_len, vec_capacity};
ghost use Rattle.st_core.specs.Step.{replies, after};

use crate::asked::Asked;
use crate::store::Store;
use st_policy::Reply;
use std::alloc::{AllocError, Allocator};

// Puts an item at the end, for which there is room.
fn put<T: Drop, A: Allocator>(items: &mut Vec<T, A>, item: T)
    requires { vec_len items.old < vec_capacity items.old }
    ensures items { items.new.items ≡ items.old.items ++ item ∷ [] }
    ensures capacity { vec_capacity items.old ≤ vec_capacity items.new }
{
    let Ok(()) = items.push(item) else {
        unreachable!()
    };
}

/// The replies to a list of requests, one after another. Room for the replies is made first. When out of memory the store is as
/// after the requests before the one that met it, or as it was.
pub fn run<A: Allocator + Copy>(
    store: &mut Store<A>,
    asked: &[Asked<A>],
) -> Result<Vec<Reply<A>, A>, AllocError>
    ensures replies { IfOk result (λ told. told.items ≡ replies store.old asked.now) }
    ensures state { OnOk result (store.new ≡ after store.old asked.now) }
    ensures stopped { OnErr result ((done : ℕ)
        × ((done < length asked.now) ⊎ (done ≡ 0)) × (store.new ≡ after store.old (take done asked.now))) }
{
    let mut replies = Vec::with_capacity(store.allocator(), asked.len())?;
    for one in asked {
        let reply = store.step(one)?;
        put(&mut replies, reply);
    }
    Ok(replies)
}
