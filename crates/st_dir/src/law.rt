//! The laws of the directory, each the contract of a function that does nothing.
ghost use Rattle.std.specs.Prelude.{◌≡◌, ◌≢◌, map, true, false, Some};
ghost use Rattle.st_text.specs.Names.{namespace_of};
ghost use Rattle.st_text.specs.Texts.{Text};
ghost use Rattle.st_sorted.specs.Sorted.{Rises, name_key};
ghost use Rattle.st_dir.specs.Changes.{granted, user_dropped, table_dropped};
ghost use Rattle.st_dir.specs.Directory.{Directory, has_table, is_granted};
ghost use Rattle.st_dir.specs.Listings.{grants_on};
ghost use Rattle.st_dir.specs.inner.Shown.{lists};
ghost use Rattle.st_grant.specs.Permissions.{table_permission};
ghost use Rattle.st_grant.specs.declared.grant.Scope.{Scope};
ghost use Rattle.st_grant.specs.declared.grant.Scope.TheVariants.{OnTable, OnNamespace};
ghost use Rattle.st_grant.specs.declared.permission.Permission.{Permission};
ghost use Rattle.st_grant.specs.declared.table_permission.TablePermission.{TablePermission};

use std::alloc::Allocator;

/// Granting what is held changes nothing.
pub fn granting_what_is_held<A: Allocator>()
    ensures { (d : Directory A) (user : Text) (scope : Scope) (p : Permission)
        → is_granted d user scope p ≡ true → granted user scope p d ≡ d }
{}

/// What a user is granted on a table or a namespace is in the listing of its grants.
pub fn what_is_granted_is_listed<A: Allocator>()
    ensures { (d : Directory A) (user : Text) (scope : Scope) (p : TablePermission)
        → lists user (table_permission p) (grants_on (granted user scope (table_permission p) d) scope) ≡ true }
{}

/// A dropped user holds no grant, so a user of the same name created later has none of them.
pub fn dropped_users_hold_nothing<A: Allocator>()
    ensures { (d : Directory A) (user : Text) (scope : Scope) (p : Permission) → is_granted (user_dropped user d) user scope p ≡ false }
{}

/// No grant on a dropped table is left, so a table of the same name created later has none of them.
pub fn dropped_tables_have_no_grants<A: Allocator>()
    ensures { (d : Directory A) (table : Text) (user : Text) (p : Permission)
        → is_granted (table_dropped table d) user (OnTable table) p ≡ false }
{}

/// The listing of grants names each user once, in byte order.
pub fn grants_name_each_user_once<A: Allocator>()
    ensures { (d : Directory A) (scope : Scope) → Rises name_key (map (λ given. given.user) (grants_on d scope)) }
{}

/// What is granted on a namespace holds for each of its tables.
pub fn namespace_grants_hold<A: Allocator>()
    ensures { (d : Directory A) (user namespace table : Text) (p : Permission) → namespace_of table ≡ Some namespace
        → has_table (granted user (OnNamespace namespace) p d) user table p ≡ true }
{}

/// What is granted on a namespace changes nothing on a table that is not in it.
pub fn namespace_grants_hold_nowhere_else<A: Allocator>()
    ensures { (d : Directory A) (user name table asker : Text) (p q : Permission) → namespace_of table ≢ Some name
        → has_table (granted user (OnNamespace name) p d) asker table q ≡ has_table d asker table q }
{}
