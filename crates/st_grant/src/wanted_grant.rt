//! Grants as keys of the sorted list of grants.
ghost use Rattle.st_grant.specs.Grants.{same_grant};
ghost use Rattle.st_grant.specs.Order.{grant_key};
ghost use Rattle.st_grant.specs.inner.Keys.{grant_exact};

use crate::grant::{Grant, Scope};
use crate::permission::Permission;
use st_sorted::Wanted;
use std::marker::Model;

/// The grant of a permission to a user on a scope, which is searched for.
#[derive(Drop)]
pub struct WantedGrant<'g> {
    pub user: &'g str,
    pub scope: &'g Scope,
    pub permission: Permission,
}

impl<'g> Model for WantedGrant<'g> {
    ghost use Rattle.st_grant.specs.Grants.{grant_of};
    ghost use Rattle.st_grant.specs.declared.grant.Grant.{Grant};

    ghost Value = { Grant };

    ghost view = { λ w. grant_of w.user.now w.scope.now w.permission };
}

impl<'g> Wanted<Grant> for WantedGrant<'g> {
    ghost item_key = { grant_key };

    ghost key = { grant_key };

    ghost test = { same_grant };

    ghost exact = { grant_exact };

    fn is_after(&self, grant: &Grant) -> bool {
        grant.stands_before(self.user, self.scope, self.permission)
    }

    fn is_key_of(&self, grant: &Grant) -> bool {
        grant.gives(self.user, self.scope, self.permission)
    }
}

impl Wanted<Grant> for Grant {
    ghost item_key = { grant_key };

    ghost key = { grant_key };

    ghost test = { same_grant };

    ghost exact = { grant_exact };

    fn is_after(&self, grant: &Grant) -> bool {
        grant.stands_before(self.user.as_str(), &self.scope, self.permission)
    }

    fn is_key_of(&self, grant: &Grant) -> bool {
        grant.gives(self.user.as_str(), &self.scope, self.permission)
    }
}
