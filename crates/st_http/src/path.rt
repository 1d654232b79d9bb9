//! The paths of the endpoints.
ghost use Rattle.std.specs.Prelude.{◌≡◌, map, find, option_map};
ghost use Rattle.std.specs.Str.{bytes_eq};
ghost use Rattle.st_http.specs.Paths.{pattern_of, endpoints_of, endpoint_of, allow_of};

use crate::routes::Endpoint;

// A path of one or two endpoints.
#[derive(Clone, Copy)]
pub(crate) enum Path {
    Whoami,
    Tables,
    Users,
    User,
    Grants,
    NamespaceGrants,
    Label,
    Audit,
    Get,
    Scan,
    Count,
    Grid,
    Plan,
    Put,
    Delete,
    Table,
    Constraint,
    Period,
    Token,
    Auths,
    GrantSystem,
    RevokeSystem,
    GrantTable,
    RevokeTable,
    GrantNamespace,
    RevokeNamespace,
}

// All paths, each once.
pub(crate) const ALL: [Path; 26] = [
    Path::Whoami,
    Path::Tables,
    Path::Users,
    Path::User,
    Path::Grants,
    Path::NamespaceGrants,
    Path::Label,
    Path::Audit,
    Path::Get,
    Path::Scan,
    Path::Count,
    Path::Grid,
    Path::Plan,
    Path::Put,
    Path::Delete,
    Path::Table,
    Path::Constraint,
    Path::Period,
    Path::Token,
    Path::Auths,
    Path::GrantSystem,
    Path::RevokeSystem,
    Path::GrantTable,
    Path::RevokeTable,
    Path::GrantNamespace,
    Path::RevokeNamespace,
];

// The first row with this method.
fn row_of<'a>(
    rows: &'a [(&'static str, Endpoint)],
    method: &[u8],
) -> Option<&'a (&'static str, Endpoint)>
    ensures { option_map (λ row. row.now) result ≡ find (λ row. bytes_eq row.0.now method.now) rows.now }
{
    rows.iter().find(|row| row.0.as_bytes() == method)
}

impl Path {
    // Its endpoints, each with its method, in the order DELETE, GET, POST.
    fn endpoints(self) -> &'static [(&'static str, Endpoint)]
        ensures { map (λ row. (row.0.now, row.1)) result.now ≡ endpoints_of self }
    {
        match self {
            Path::Whoami => &[("GET", Endpoint::Whoami)],
            Path::Tables => &[("GET", Endpoint::Tables), ("POST", Endpoint::CreateTable)],
            Path::Users => &[("GET", Endpoint::Users), ("POST", Endpoint::CreateUser)],
            Path::User => &[("DELETE", Endpoint::DropUser), ("GET", Endpoint::User)],
            Path::Grants => &[("GET", Endpoint::Grants)],
            Path::NamespaceGrants => &[("GET", Endpoint::NamespaceGrants)],
            Path::Label => &[("POST", Endpoint::Label)],
            Path::Audit => &[("GET", Endpoint::Audit)],
            Path::Get => &[("POST", Endpoint::Get)],
            Path::Scan => &[("POST", Endpoint::Scan)],
            Path::Count => &[("POST", Endpoint::Count)],
            Path::Grid => &[("POST", Endpoint::Grid)],
            Path::Plan => &[("POST", Endpoint::Plan)],
            Path::Put => &[("POST", Endpoint::Put)],
            Path::Delete => &[("POST", Endpoint::Delete)],
            Path::Table => &[("DELETE", Endpoint::DropTable)],
            Path::Constraint => &[("POST", Endpoint::Constraint)],
            Path::Period => &[("POST", Endpoint::Period)],
            Path::Token => &[("POST", Endpoint::Token)],
            Path::Auths => &[("POST", Endpoint::Auths)],
            Path::GrantSystem => &[("POST", Endpoint::GrantSystem)],
            Path::RevokeSystem => &[("POST", Endpoint::RevokeSystem)],
            Path::GrantTable => &[("POST", Endpoint::GrantTable)],
            Path::RevokeTable => &[("POST", Endpoint::RevokeTable)],
            Path::GrantNamespace => &[("POST", Endpoint::GrantNamespace)],
            Path::RevokeNamespace => &[("POST", Endpoint::RevokeNamespace)],
        }
    }

    // The endpoint of the path that has this method.
    pub(crate) fn endpoint(self, method: &[u8]) -> Option<Endpoint>
        ensures { result ≡ endpoint_of method.now (endpoints_of self) }
    {
        match row_of(self.endpoints(), method) {
            Some(row) => Some(row.1),
            None => None,
        }
    }

    // The methods of its endpoints.
    pub(crate) fn allow(self) -> &'static str
        ensures { result.now ≡ allow_of (endpoints_of self) }
    {
        match self {
            Path::Tables | Path::Users => "GET, POST",
            Path::User => "DELETE, GET",
            Path::Whoami | Path::Grants | Path::NamespaceGrants | Path::Audit => "GET",
            Path::Table => "DELETE",
            Path::Label
            | Path::Get
            | Path::Scan
            | Path::Count
            | Path::Grid
            | Path::Plan
            | Path::Put
            | Path::Delete
            | Path::Constraint
            | Path::Period
            | Path::Token
            | Path::Auths
            | Path::GrantSystem
            | Path::RevokeSystem
            | Path::GrantTable
            | Path::RevokeTable
            | Path::GrantNamespace
            | Path::RevokeNamespace => "POST",
        }
    }

    // How the path is written, with a placeholder for the name in it.
    pub(crate) fn pattern(self) -> &'static str
        ensures { result.now ≡ pattern_of self }
    {
        match self {
            Path::Whoami => "/whoami",
            Path::Tables => "/tables",
            Path::Users => "/users",
            Path::User => "/users/{user}",
            Path::Grants => "/tables/{table}/grants",
            Path::NamespaceGrants => "/namespaces/{namespace}/grants",
            Path::Label => "/label",
            Path::Audit => "/audit",
            Path::Get => "/tables/{table}/get",
            Path::Scan => "/tables/{table}/scan",
            Path::Count => "/tables/{table}/count",
            Path::Grid => "/tables/{table}/grid",
            Path::Plan => "/tables/{table}/plan",
            Path::Put => "/tables/{table}/put",
            Path::Delete => "/tables/{table}/delete",
            Path::Table => "/tables/{table}",
            Path::Constraint => "/tables/{table}/constraint",
            Path::Period => "/tables/{table}/period",
            Path::Token => "/users/{user}/token",
            Path::Auths => "/users/{user}/auths",
            Path::GrantSystem => "/users/{user}/grant",
            Path::RevokeSystem => "/users/{user}/revoke",
            Path::GrantTable => "/tables/{table}/grant",
            Path::RevokeTable => "/tables/{table}/revoke",
            Path::GrantNamespace => "/namespaces/{namespace}/grant",
            Path::RevokeNamespace => "/namespaces/{namespace}/revoke",
        }
    }
}
