//! Accounts.
use st_grant::{Name, Permission};
use st_text::{CompactText, Items};
use std::alloc::{Allocator, Global};

/// What is shown of a user: the name, the authorizations in byte order, each once, and the permissions
/// on the system in listing order.
#[derive(Drop)]
pub struct Account<A: Allocator = Global> {
    pub user: Name,
    pub auths: Items<CompactText<A>, A>,
    pub permissions: Items<Permission, A>,
}
