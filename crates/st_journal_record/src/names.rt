//! The names of endpoints in records.
ghost use Rattle.std.specs.Prelude.{◌≡◌, find};
ghost use Rattle.std.specs.Str.{bytes_eq};
ghost use Rattle.st_journal_record.specs.Names.{request_of};
ghost use Rattle.st_journal_record.specs.inner.Finding.{endpoint_named};

use st_http::routes::Endpoint;

// All endpoints, each once.
const ALL: [Endpoint; 29] = [
    Endpoint::Whoami,
    Endpoint::Tables,
    Endpoint::Users,
    Endpoint::User,
    Endpoint::Grants,
    Endpoint::NamespaceGrants,
    Endpoint::Label,
    Endpoint::Audit,
    Endpoint::Get,
    Endpoint::Scan,
    Endpoint::Count,
    Endpoint::Grid,
    Endpoint::Plan,
    Endpoint::Put,
    Endpoint::Delete,
    Endpoint::CreateTable,
    Endpoint::DropTable,
    Endpoint::Constraint,
    Endpoint::Period,
    Endpoint::CreateUser,
    Endpoint::DropUser,
    Endpoint::Token,
    Endpoint::Auths,
    Endpoint::GrantSystem,
    Endpoint::RevokeSystem,
    Endpoint::GrantTable,
    Endpoint::RevokeTable,
    Endpoint::GrantNamespace,
    Endpoint::RevokeNamespace,
];

// What a record calls an endpoint.
pub(crate) fn request_of(endpoint: Endpoint) -> &'static str
    ensures { result.now ≡ request_of endpoint }
{
    match endpoint {
        Endpoint::Whoami => "whoami",
        Endpoint::Tables => "tables",
        Endpoint::Users => "users",
        Endpoint::User => "user",
        Endpoint::Grants => "grants",
        Endpoint::NamespaceGrants => "namespace-grants",
        Endpoint::Label => "label",
        Endpoint::Audit => "audit",
        Endpoint::Get => "get",
        Endpoint::Scan => "scan",
        Endpoint::Count => "count",
        Endpoint::Grid => "grid",
        Endpoint::Plan => "plan",
        Endpoint::Put => "put",
        Endpoint::Delete => "delete",
        Endpoint::CreateTable => "create-table",
        Endpoint::DropTable => "drop-table",
        Endpoint::Constraint => "constraint",
        Endpoint::Period => "period",
        Endpoint::CreateUser => "create-user",
        Endpoint::DropUser => "drop-user",
        Endpoint::Token => "token",
        Endpoint::Auths => "auths",
        Endpoint::GrantSystem => "grant-system",
        Endpoint::RevokeSystem => "revoke-system",
        Endpoint::GrantTable => "grant-table",
        Endpoint::RevokeTable => "revoke-table",
        Endpoint::GrantNamespace => "grant-namespace",
        Endpoint::RevokeNamespace => "revoke-namespace",
    }
}

// The first of the endpoints that is called so.
fn find_named(endpoints: &[Endpoint], request: &str) -> Option<Endpoint>
    ensures { result ≡ find (λ e. bytes_eq (request_of e) request.now) endpoints.now }
{
    endpoints.iter().copied().find(|endpoint| request_of(*endpoint).as_bytes()
        == request.as_bytes())
}

#[tactic(auto, unfolding(crate::specs::inner::Finding::all_endpoints))]
// The endpoint that is called so.
pub(crate) fn endpoint_named(request: &str) -> Option<Endpoint>
    ensures { result ≡ endpoint_named request.now }
{
    find_named(&ALL, request)
}
