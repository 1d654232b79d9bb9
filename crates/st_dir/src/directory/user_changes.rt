//! Changes of users.
ghost use Rattle.std.specs.Prelude.{◌≡◌, [], true, false, Err, IfErr, IsOk, OnOk, OnErr};
ghost use Rattle.st_dir.specs.Changes.{user_added, user_dropped, digest_set, auths_set, system_granted, system_revoked};
ghost use Rattle.st_dir.specs.Directory.{is_user};
ghost use Rattle.st_grant.specs.Permissions.{system_permission};
ghost use Rattle.st_dir.specs.declared.fault.DirectoryFault.TheVariants.{NoUser, UserExists, NoMemory};

use crate::directory::Directory;
use crate::fault::DirectoryFault;
use crate::user::User;
use st_auth::Auths;
use st_grant::{Name, SystemPermission, SystemPermissions};
use std::alloc::Allocator;

// A user without permissions.
fn new_user<A: Allocator>(name: &Name, digest: [u8; 32], auths: Auths<A>) -> User<A>
    ensures { result ≡ record { name = name.now; digest = digest; auths = auths; permissions = [] } }
{
    User {
        name: name.copy(),
        digest,
        auths,
        permissions: SystemPermissions::none(),
    }
}

impl<A: Allocator + Copy> Directory<A> {
    /// Creates a user without permissions. `UserExists` comes before `NoMemory`. An error leaves the
    /// directory unchanged.
    pub fn create_user(
        &mut self,
        user: &Name,
        digest: [u8; 32],
        auths: Auths<A>,
    ) -> Result<(), DirectoryFault>
        ensures exists { is_user self.old user.now ≡ true → result ≡ Err UserExists }
        ensures fault { is_user self.old user.now ≡ false → IfErr result (λ fault. fault ≡ NoMemory) }
        ensures ok { OnOk result (self.new ≡ user_added user.now digest auths self.old) }
        ensures err { OnErr result (self.new ≡ self.old) }
    {
        if self.has_user(user.as_str()) {
            return Err(DirectoryFault::UserExists);
        }
        let made = new_user(user, digest, auths);
        match self.users.add(made) {
            Ok(()) => Ok(()),
            Err(_) => Err(DirectoryFault::NoMemory),
        }
    }
}

impl<A: Allocator> Directory<A> {
    /// Removes a user and every grant to it; `NoUser` if there is none. A user of the same name created
    /// later has none of the old grants.
    pub fn drop_user(&mut self, user: &Name) -> Result<(), DirectoryFault>
        ensures no_user { is_user self.old user.now ≡ false → result ≡ Err NoUser }
        ensures there { is_user self.old user.now ≡ true → IsOk result }
        ensures ok { OnOk result (self.new ≡ user_dropped user.now self.old) }
        ensures err { OnErr result (self.new ≡ self.old) }
    {
        if !self.has_user(user.as_str()) {
            return Err(DirectoryFault::NoUser);
        }
        self.users.remove(user.as_str());
        self.grants.remove_user(user.as_str());
        Ok(())
    }

    /// Gives the user another token by its digest; `NoUser` if there is none.
    pub fn set_token(&mut self, user: &Name, digest: [u8; 32]) -> Result<(), DirectoryFault>
        ensures no_user { is_user self.old user.now ≡ false → result ≡ Err NoUser }
        ensures there { is_user self.old user.now ≡ true → IsOk result }
        ensures ok { OnOk result (self.new ≡ digest_set user.now digest self.old) }
        ensures err { OnErr result (self.new ≡ self.old) }
    {
        if !self.has_user(user.as_str()) {
            return Err(DirectoryFault::NoUser);
        }
        self.users.set_digest(user.as_str(), digest);
        Ok(())
    }

    /// Gives the user these authorizations in place of its own; `NoUser` if there is none.
    pub fn set_auths(&mut self, user: &Name, auths: Auths<A>) -> Result<(), DirectoryFault>
        ensures no_user { is_user self.old user.now ≡ false → result ≡ Err NoUser }
        ensures there { is_user self.old user.now ≡ true → IsOk result }
        ensures ok { OnOk result (self.new ≡ auths_set user.now auths self.old) }
        ensures err { OnErr result (self.new ≡ self.old) }
    {
        if !self.has_user(user.as_str()) {
            return Err(DirectoryFault::NoUser);
        }
        self.users.set_auths(user.as_str(), auths);
        Ok(())
    }

    /// Gives the user a permission on the system; `NoUser` if there is none.
    pub fn grant_system(
        &mut self,
        user: &Name,
        permission: SystemPermission,
    ) -> Result<(), DirectoryFault>
        ensures no_user { is_user self.old user.now ≡ false → result ≡ Err NoUser }
        ensures there { is_user self.old user.now ≡ true → IsOk result }
        ensures ok { OnOk result (self.new ≡ system_granted user.now (system_permission permission) self.old) }
        ensures err { OnErr result (self.new ≡ self.old) }
    {
        if !self.has_user(user.as_str()) {
            return Err(DirectoryFault::NoUser);
        }
        self.users.grant(user.as_str(), permission.permission());
        Ok(())
    }

    /// Takes a permission on the system from the user; `NoUser` if there is none.
    pub fn revoke_system(
        &mut self,
        user: &Name,
        permission: SystemPermission,
    ) -> Result<(), DirectoryFault>
        ensures no_user { is_user self.old user.now ≡ false → result ≡ Err NoUser }
        ensures there { is_user self.old user.now ≡ true → IsOk result }
        ensures ok { OnOk result (self.new ≡ system_revoked user.now (system_permission permission) self.old) }
        ensures err { OnErr result (self.new ≡ self.old) }
    {
        if !self.has_user(user.as_str()) {
            return Err(DirectoryFault::NoUser);
        }
        self.users.revoke(user.as_str(), permission.permission());
        Ok(())
    }
}
