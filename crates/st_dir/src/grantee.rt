//! Users with what they have been granted.
use st_grant::{Name, Permission};
use st_text::Items;
use std::alloc::{Allocator, Global};

/// A user and the table permissions that it has been granted on a table or a namespace, in listing
/// order.
#[derive(Drop)]
pub struct Grantee<A: Allocator = Global> {
    pub user: Name,
    pub permissions: Items<Permission, A>,
}
