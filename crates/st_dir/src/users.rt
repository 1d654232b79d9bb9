//! The users.
ghost use Rattle.std.specs.Prelude.{◌≡◌, ◌∷◌, [], None, find, filter, not, option_map, map, IfOk, OnOk, OnErr};
ghost use Rattle.st_text.specs.Texts.{same, in_order};
ghost use Rattle.st_dir.specs.Changes.{with_user};
ghost use Rattle.st_dir.specs.Order.{user_key};
ghost use Rattle.st_grant.specs.Permissions.{listed, same_permission};
ghost use Rattle.st_sorted.specs.Sorted.{Rises};
ghost use Rattle.st_dir.specs.declared.user.User as Declared;

use crate::user::User;
use st_auth::Auths;
use st_grant::{Name, Named, Permission};
use st_sorted::{get, place_of, position, remove};
use st_text::Items;
use std::alloc::{AllocError, Allocator, Global};
use std::marker::Model;

/// The users, sorted by the bytes of their names.
#[derive(Drop)]
pub struct Users<A: Allocator = Global> {
    users: Vec<User<A>, A>,
}

impl<A: Allocator> Model for Users<A> {
    ghost use Rattle.std.specs.Prelude.{List};
    ghost use Rattle.st_dir.specs.Order.{user_key};
    ghost use Rattle.st_sorted.specs.Sorted.{Rises};
    ghost use Rattle.st_dir.specs.declared.user.User.{User};

    ghost Value = { List (User A) };

    ghost view = { λ u. u.users.items };

    ghost invariant = { λ u. Rises user_key u.users.items };
}

impl<A: Allocator> Users<A> {
    /// The user of this name.
    pub fn get(&self, name: &str) -> Option<&User<A>>
        ensures { option_map (λ user. user.now) result ≡ find (λ user. same user.name name.now) self.now }
    {
        get(&self.users, &Named(name))
    }

    /// Takes out the user of this name, if there is one.
    pub fn remove(&mut self, name: &str)
        ensures { self.new ≡ filter (λ user. not (same user.name name.now)) self.old }
    {
        remove(&mut self.users, &Named(name));
    }

    /// Gives the user of this name, if there is one, another digest.
    pub fn set_digest(&mut self, name: &str, digest: [u8; 32])
        ensures { self.new ≡ with_user name.now (λ user. record user { digest = digest }) self.old }
    {
        match position(&self.users, &Named(name)) {
            Some(place) => self.users[place].digest = digest,
            None => {}
        }
    }

    /// Gives the user of this name, if there is one, other authorizations.
    pub fn set_auths(&mut self, name: &str, auths: Auths<A>)
        ensures { self.new ≡ with_user name.now (λ user. record user { auths = auths }) self.old }
    {
        match position(&self.users, &Named(name)) {
            Some(place) => self.users[place].auths = auths,
            None => {}
        }
    }

    /// Gives the user of this name, if there is one, a permission on the system.
    pub fn grant(&mut self, name: &str, permission: Permission)
        ensures { self.new
            ≡ with_user name.now (λ user. record user { permissions = listed (permission ∷ user.permissions) }) self.old }
    {
        match position(&self.users, &Named(name)) {
            Some(place) => self.users[place].permissions.add(permission),
            None => {}
        }
    }

    /// Takes a permission on the system from the user of this name, if there is one.
    pub fn revoke(&mut self, name: &str, permission: Permission)
        ensures { self.new ≡ with_user name.now (λ user.
            record user { permissions = filter (λ held. not (same_permission permission held)) user.permissions }) self.old }
    {
        match position(&self.users, &Named(name)) {
            Some(place) => self.users[place].permissions.remove(permission),
            None => {}
        }
    }
}

impl<A: Allocator + Copy> Users<A> {
    /// No users.
    pub fn new(alloc: A) -> Users<A>
        ensures { result ≡ [] }
    {
        Users {
            users: Vec::new(alloc),
        }
    }

    /// Puts in a user whose name is new. `AllocError` when out of memory; the users are then unchanged.
    pub fn add(&mut self, user: User<A>) -> Result<(), AllocError>
        requires { find (λ other. same other.name user.name) self.old ≡ None }
        ensures ok { OnOk result (self.new ≡ in_order user_key (user ∷ self.old)) }
        ensures err { OnErr result (self.new ≡ self.old) }
    {
        let place = place_of(&self.users, &Named(user.name.as_str()));
        let Ok(()) = self.users.insert(place, user) else {
            return Err(AllocError);
        };
        Ok(())
    }
}

// The users' names, in order. `AllocError` when out of memory.
fn names_of<A: Allocator + Copy>(alloc: A, users: &[User<A>]) -> Result<Items<Name, A>, AllocError>
    ensures { IfOk result (λ names. names ≡ map (λ user. user.name) users.now) }
{
    let mut names = Items::new(alloc);
    for user in users {
        names.push(user.name.copy())?;
    }
    Ok(names)
}

// Equal users, in order. `AllocError` when out of memory.
fn copies<A: Allocator + Copy>(alloc: A, users: &[User<A>]) -> Result<Vec<User<A>, A>, AllocError>
    ensures { IfOk result (λ copies. copies.items ≡ users.now) }
{
    let mut copies = Vec::new(alloc);
    for user in users {
        copies.push(user.copy()?)?;
    }
    Ok(copies)
}

impl<A: Allocator + Copy> Users<A> {
    /// The names, in byte order. `AllocError` when out of memory.
    pub fn names(&self, alloc: A) -> Result<Items<Name, A>, AllocError>
        ensures { IfOk result (λ names. names ≡ map (λ user. user.name) (in_order user_key self.now)) }
    {
        names_of(alloc, &self.users)
    }

    /// Equal users. `AllocError` when out of memory.
    pub fn copy(&self, alloc: A) -> Result<Users<A>, AllocError>
        ensures { IfOk result (λ users. users ≡ self.now) }
    {
        Ok(Users {
            users: copies(alloc, &self.users)?,
        })
    }
}
