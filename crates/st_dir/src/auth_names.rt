//! The names of authorizations, each once.
ghost use Rattle.std.specs.Prelude.{◌≡◌, IfOk, OnOk};
ghost use Rattle.st_text.specs.Texts.{set_of};
ghost use Rattle.st_sorted.specs.Sorted.{Rises, name_key};
ghost use Rattle.st_grant.specs.inner.Names.{with_name};

use st_auth::Auths;
use st_grant::Named;
use st_sorted::{has, place_of};
use st_text::{CompactText, Items};
use std::alloc::{AllocError, Allocator};

// Puts in a name, unless it is there.
fn put<A: Allocator>(
    names: &mut Vec<CompactText<A>, A>,
    name: CompactText<A>,
) -> Result<(), AllocError>
    requires { Rises name_key names.old.items }
    ensures ok { OnOk result (names.new.items ≡ with_name name names.old.items) }
{
    let wanted = Named(name.as_str());
    if has(names, &wanted) {
        return Ok(());
    }
    let place = place_of(names, &wanted);
    let Ok(()) = names.insert(place, name) else {
        return Err(AllocError);
    };
    Ok(())
}

/// The names of a set, in byte order, each once. `AllocError` when out of memory.
pub fn each_once<A: Allocator + Copy>(
    alloc: A,
    auths: &Auths<A>,
) -> Result<Items<CompactText<A>, A>, AllocError>
    ensures { IfOk result (λ names. names ≡ set_of auths.now) }
{
    let mut names = Vec::with_capacity(alloc, auths.len())?;
    let order = auths.order();
    // In byte order, so that each goes to the end.
    for place in order {
        let name = CompactText::new(alloc, auths.get(*place))?;
        put(&mut names, name)?;
    }
    Ok(Items::from_vec(names))
}
