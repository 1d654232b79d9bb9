//! What users have been granted.
ghost use Rattle.std.specs.Prelude.{◌≡◌, ◌∷◌, []};
ghost use Rattle.std.specs.Cmp.Lexicographic.{slice_cmp};
ghost use Rattle.std.specs.Ordering.{nat_cmp};
ghost use Rattle.st_text.specs.Texts.{comes_before};
ghost use Rattle.st_grant.specs.Order.{grant_key, scope_kind, scope_name};

use crate::name::Name;
use crate::permission::Permission;
use crate::table_name::TableName;
use std::cmp::Ordering;

/// What a table permission is granted on: one table, or each table of a namespace.
#[derive(Drop)]
pub enum Scope {
    OnTable(TableName),
    OnNamespace(Name),
}

impl Scope {
    ghost use Rattle.st_grant.specs.Grants.{same_scope};

    // An equal scope.
    pub(crate) fn copy(&self) -> Scope
        ensures { result ≡ self.now }
    {
        match self {
            Scope::OnTable(name) => Scope::OnTable(name.copy()),
            Scope::OnNamespace(name) => Scope::OnNamespace(name.copy()),
        }
    }

    // Compares it with another: tables before namespaces, then by the bytes of their names.
    pub(crate) fn compare(&self, other: &Scope) -> Ordering
        ensures { result
            ≡ slice_cmp (slice_cmp nat_cmp) (scope_kind self.now ∷ scope_name self.now ∷ [])
            (scope_kind other.now ∷ scope_name other.now ∷ []) }
    {
        match (self, other) {
            (Scope::OnTable(name), Scope::OnTable(other)) => name.as_str().cmp(other.as_str()),
            (Scope::OnTable(_), Scope::OnNamespace(_)) => Ordering::Less,
            (Scope::OnNamespace(_), Scope::OnTable(_)) => Ordering::Greater,
            (Scope::OnNamespace(name), Scope::OnNamespace(other)) => {
                name.as_str().cmp(other.as_str())
            }
        }
    }

    /// Whether it is the same scope.
    pub fn is_same(&self, other: &Scope) -> bool
        ensures { result ≡ same_scope self.now other.now }
    {
        match (self, other) {
            (Scope::OnTable(name), Scope::OnTable(other)) => name.is(other.as_str()),
            (Scope::OnNamespace(name), Scope::OnNamespace(other)) => name.is(other.as_str()),
            _ => false,
        }
    }
}

/// A table permission that a user has been granted.
#[derive(Drop)]
pub struct Grant {
    pub user: Name,
    pub scope: Scope,
    pub permission: Permission,
}

impl Grant {
    ghost use Rattle.st_grant.specs.Grants.{grant_of, same_grant};

    // An equal grant.
    pub(crate) fn copy(&self) -> Grant
        ensures { result ≡ self.now }
    {
        Grant {
            user: self.user.copy(),
            scope: self.scope.copy(),
            permission: self.permission,
        }
    }

    /// Whether it gives the user this permission on this scope.
    pub fn gives(&self, user: &str, scope: &Scope, permission: Permission) -> bool
        ensures { result ≡ same_grant (grant_of user.now scope.now permission) self.now }
    {
        user == self.user.as_str()
            && scope.is_same(&self.scope)
            && permission.is_same(self.permission)
    }

    // Whether it is sorted before the grant of this permission to this user on this scope.
    pub(crate) fn stands_before(&self, user: &str, scope: &Scope, permission: Permission) -> bool
        ensures { result ≡ comes_before (grant_key self.now) (grant_key (grant_of user.now scope.now permission)) }
    {
        let by_scope = self.scope.compare(scope);
        let by_user = self.user.as_str().cmp(user);
        let by_place = self.permission.place().cmp(&permission.place());
        by_scope.then(by_user).then(by_place).is_lt()
    }
}
