//! The directory of users, tables and grants.
#![tactic(auto)]

mod account;
mod auth_names;
mod directory;
mod fault;
mod grantee;
pub mod law;
mod named;
mod table;
mod tables;
mod user;
mod users;

pub use account::Account;
pub use directory::Directory;
pub use fault::DirectoryFault;
pub use grantee::Grantee;
pub use st_grant::{
    BadName, Grant, Name, Permission, Scope, SystemPermission, SystemPermissions, TableName,
    TablePermission,
};
pub use table::TableInfo;
pub use user::User;
