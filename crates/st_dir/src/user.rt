//! Users.
ghost use Rattle.std.specs.Prelude.{◌≡◌, IfOk};
ghost use Rattle.st_text.specs.Texts.{set_of};
ghost use Rattle.st_grant.specs.Permissions.{listed};

use crate::account::Account;
use crate::auth_names::each_once;
use st_auth::Auths;
use st_grant::{Name, SystemPermissions};
use std::alloc::{AllocError, Allocator, Global};

/// A user: the name, the SHA-256 of the secret, the authorizations, and the permissions on the system.
#[derive(Drop)]
pub struct User<A: Allocator = Global> {
    pub name: Name,
    pub digest: [u8; 32],
    pub auths: Auths<A>,
    pub permissions: SystemPermissions,
}

impl<A: Allocator + Copy> User<A> {
    // An equal user. `AllocError` when out of memory.
    pub(crate) fn copy(&self) -> Result<User<A>, AllocError>
        ensures { IfOk result (λ user. user ≡ self.now) }
    {
        Ok(User {
            name: self.name.copy(),
            digest: self.digest,
            auths: self.auths.copy()?,
            permissions: self.permissions.copy(),
        })
    }

    // The account of the user. `AllocError` when out of memory.
    pub(crate) fn account(&self, alloc: A) -> Result<Account<A>, AllocError>
        ensures { IfOk result (λ account. account
            ≡ record { user = self.now.name; auths = set_of self.now.auths; permissions = listed self.now.permissions }) }
    {
        Ok(Account {
            user: self.name.copy(),
            auths: each_once(alloc, &self.auths)?,
            permissions: self.permissions.listed(alloc)?,
        })
    }
}
