//! The names of users, each once.
ghost use Rattle.std.specs.Prelude.{◌≡◌, map, filter, if◌then◌else◌, IfOk, OnOk};
ghost use Rattle.st_text.specs.Texts.{set_of};
ghost use Rattle.st_grant.specs.Grants.{same_scope};
ghost use Rattle.st_sorted.specs.Sorted.{Rises, name_key};
ghost use Rattle.st_grant.specs.inner.Names.{with_name};

use crate::grant::{Grant, Scope};
use crate::name::Name;
use crate::named::Named;
use st_sorted::{has, place_of};
use st_text::Items;
use std::alloc::{AllocError, Allocator};

// Puts in a name, unless it is there.
fn put<A: Allocator>(names: &mut Vec<Name, A>, name: Name) -> Result<(), AllocError>
    requires { Rises name_key names.old.items }
    ensures ok { OnOk result (names.new.items ≡ with_name name names.old.items) }
{
    let wanted = Named(name.as_str());
    if has(names, &wanted) {
        return Ok(());
    }
    let place = place_of(names, &wanted);
    let Ok(()) = names.insert(place, name) else {
        return Err(AllocError);
    };
    Ok(())
}

// Puts in the user of a grant, if the grant is on this scope.
fn put_granted<A: Allocator>(
    names: &mut Vec<Name, A>,
    grant: &Grant,
    scope: &Scope,
) -> Result<(), AllocError>
    requires { Rises name_key names.old.items }
    ensures ok { OnOk result (names.new.items
        ≡ (if same_scope scope.now grant.now.scope then with_name grant.now.user names.old.items else names.old.items)) }
{
    if scope.is_same(&grant.scope) {
        return put(names, grant.user.copy());
    }
    Ok(())
}

/// The users who have been granted something on the scope itself, by the bytes of their names and
/// each once. `AllocError` when out of memory.
pub fn granted_on<A: Allocator + Copy>(
    alloc: A,
    grants: &[Grant],
    scope: &Scope,
) -> Result<Items<Name, A>, AllocError>
    ensures { IfOk result (λ names. names ≡ set_of (map (λ g. g.user) (filter (λ g. same_scope scope.now g.scope) grants.now))) }
{
    let mut names = Vec::new(alloc);
    for grant in grants {
        put_granted(&mut names, grant, scope)?;
    }
    Ok(Items::from_vec(names))
}
