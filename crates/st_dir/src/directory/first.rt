//! The directory that a server begins with.
ghost use Rattle.std.specs.Prelude.{◌≡◌, ◌∷◌, [], IfOk, false, codes};
ghost use Rattle.st_grant.specs.Permissions.{system_permissions};
ghost use Rattle.st_grant.specs.Grants.{all_on};
ghost use Rattle.st_grant.specs.declared.grant.Scope.TheVariants.{OnTable};
ghost use Rattle.st_key.specs.declared.period.Period as Period;

use crate::table::TableInfo;
use crate::tables::Tables;
use crate::user::User;
use crate::users::Users;
use st_auth::Auths;
use st_grant::{Grants, Name, Scope, SystemPermissions, TableName};
use st_key::Period;
use std::alloc::{AllocError, Allocator};

// The name of the user that a server begins with.
fn root() -> Name
    ensures { result ≡ codes "root" }
{
    match Name::new("root") {
        Ok(name) => name,
        Err(_) => unreachable!(),
    }
}

// The name of the table that a server begins with.
fn points() -> TableName
    ensures { result ≡ codes "points" }
{
    match TableName::new("points") {
        Ok(name) => name,
        Err(_) => unreachable!(),
    }
}

// The user root, who has each permission on the system.
pub(super) fn first_users<A: Allocator + Copy>(
    alloc: A,
    digest: [u8; 32],
    auths: Auths<A>,
) -> Result<Users<A>, AllocError>
    ensures { IfOk result (λ users. users
        ≡ record { name = codes "root"; digest = digest; auths = auths; permissions = system_permissions } ∷ []) }
{
    let mut users = Users::new(alloc);
    users.add(User {
        name: root(),
        digest,
        auths,
        permissions: SystemPermissions::all(),
    })?;
    Ok(users)
}

// The table points, with weeks for bins.
pub(super) fn first_tables<A: Allocator + Copy>(alloc: A) -> Result<Tables<A>, AllocError>
    ensures { IfOk result (λ tables. tables
        ≡ record { table = codes "points"; constraint = false; period = Period.Week } ∷ []) }
{
    let mut tables = Tables::new(alloc);
    tables.add(TableInfo {
        table: points(),
        constraint: false,
        period: Period::Week,
    })?;
    Ok(tables)
}

#[tactic(auto, using(crate::proofs::First::first_in_order))]
// Each table permission for the user root on the table points.
pub(super) fn first_grants<A: Allocator + Copy>(alloc: A) -> Result<Grants<A>, AllocError>
    ensures { IfOk result (λ grants. grants ≡ all_on (codes "root") (OnTable (codes "points"))) }
{
    let mut grants = Grants::new(alloc);
    grants.add_all(&root(), &Scope::OnTable(points()))?;
    Ok(grants)
}
