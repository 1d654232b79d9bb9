//! What a request is about.
use super::Request;
use st_dir::{Name, TableName};
use std::alloc::Allocator;

impl<A: Allocator> Request<A> {
    ghost use Rattle.std.specs.Prelude.{◌≡◌, ◌≤◌, length, option_map};
    ghost use Rattle.st_policy.specs.Requests.{is_change, request_name, namespace_named, table_of, target_of, user_of};

    /// Whether it changes anything, where it is allowed.
    pub fn is_change(&self) -> bool
        ensures { result ≡ is_change self.now }
    {
        match self {
            Request::Whoami
            | Request::Tables
            | Request::Users
            | Request::User { .. }
            | Request::Grants { .. }
            | Request::NamespaceGrants { .. }
            | Request::Label { .. }
            | Request::Audit
            | Request::Get { .. }
            | Request::Scan { .. }
            | Request::Count { .. }
            | Request::Grid { .. }
            | Request::Plan { .. } => false,
            _ => true,
        }
    }

    /// The name of its line in the table of requests, by which the audit listing writes it.
    pub fn name(&self) -> &'static str
        ensures value { result.now ≡ request_name self.now }
        ensures short { length result.now ≤ 16 }
    {
        match self {
            Request::Whoami => "whoami",
            Request::Tables => "tables",
            Request::Users => "users",
            Request::User { .. } => "user",
            Request::Grants { .. } => "grants",
            Request::NamespaceGrants { .. } => "namespace-grants",
            Request::Label { .. } => "label",
            Request::Audit => "audit",
            Request::Get { .. } => "get",
            Request::Scan { .. } => "scan",
            Request::Count { .. } => "count",
            Request::Grid { .. } => "grid",
            Request::Plan { .. } => "plan",
            Request::Put { .. } => "put",
            Request::Delete { .. } => "delete",
            Request::CreateTable { .. } => "create-table",
            Request::DropTable { .. } => "drop-table",
            Request::Constraint { .. } => "constraint",
            Request::Period { .. } => "period",
            Request::CreateUser { .. } => "create-user",
            Request::DropUser { .. } => "drop-user",
            Request::Token { .. } => "token",
            Request::Auths { .. } => "auths",
            Request::GrantSystem { .. } => "grant-system",
            Request::RevokeSystem { .. } => "revoke-system",
            Request::GrantTable { .. } => "grant-table",
            Request::RevokeTable { .. } => "revoke-table",
            Request::GrantNamespace { .. } => "grant-namespace",
            Request::RevokeNamespace { .. } => "revoke-namespace",
        }
    }

    /// The table that it is about, which must be there, if it is about one.
    pub fn table(&self) -> Option<&TableName>
        ensures { option_map (λ table. table.now) result ≡ table_of self.now }
    {
        match self {
            Request::Grants { table }
            | Request::Get { table, .. }
            | Request::Scan { table, .. }
            | Request::Count { table, .. }
            | Request::Grid { table, .. }
            | Request::Plan { table, .. }
            | Request::Put { table, .. }
            | Request::Delete { table, .. }
            | Request::DropTable { table }
            | Request::Constraint { table, .. }
            | Request::Period { table, .. }
            | Request::GrantTable { table, .. }
            | Request::RevokeTable { table, .. } => Some(table),
            _ => None,
        }
    }

    /// The user that it is about, who must be there, if it is about one.
    pub fn user(&self) -> Option<&Name>
        ensures { option_map (λ user. user.now) result ≡ user_of self.now }
    {
        match self {
            Request::User { user }
            | Request::DropUser { user }
            | Request::Token { user, .. }
            | Request::Auths { user, .. }
            | Request::GrantSystem { user, .. }
            | Request::RevokeSystem { user, .. }
            | Request::GrantTable { user, .. }
            | Request::RevokeTable { user, .. }
            | Request::GrantNamespace { user, .. }
            | Request::RevokeNamespace { user, .. } => Some(user),
            _ => None,
        }
    }

    /// The namespace that it is about, if it is about one.
    pub fn namespace(&self) -> Option<&Name>
        ensures { option_map (λ namespace. namespace.now) result ≡ namespace_named self.now }
    {
        match self {
            Request::NamespaceGrants { namespace }
            | Request::GrantNamespace { namespace, .. }
            | Request::RevokeNamespace { namespace, .. } => Some(namespace),
            _ => None,
        }
    }

    /// What an audit entry names: the table, else the namespace, else the user that it is about, else the
    /// name of the table or the user that it makes, and else nothing.
    pub fn target(&self) -> &str
        ensures value { result.now ≡ target_of self.now }
        ensures short { length result.now ≤ 65 }
    {
        if let Some(table) = self.table() {
            return table.as_str();
        }
        if let Some(namespace) = self.namespace() {
            return namespace.as_str();
        }
        if let Some(user) = self.user() {
            return user.as_str();
        }
        match self {
            Request::CreateTable { table, .. } => table.as_str(),
            Request::CreateUser { user, .. } => user.as_str(),
            _ => "",
        }
    }
}
