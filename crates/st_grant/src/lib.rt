//! Names, permissions and grants.
#![tactic(auto)]

mod grant;
mod grants;
mod name;
mod named;
mod permission;
mod system_permission;
mod system_permissions;
mod table_name;
mod table_permission;
mod user_names;
mod wanted_grant;

pub use grant::{Grant, Scope};
pub use grants::Grants;
pub use name::{BadName, Name};
pub use named::Named;
pub use permission::Permission;
pub use system_permission::SystemPermission;
pub use system_permissions::SystemPermissions;
pub use table_name::TableName;
pub use table_permission::TablePermission;
