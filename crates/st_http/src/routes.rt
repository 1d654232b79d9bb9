//! Routing: the endpoint that a method and a target name.
//!
//! Methods are texts in the table of paths. An `http::Method` may own the memory of a long name, so a constant table cannot hold
//! one (`borrow-e0716`).
ghost use Rattle.std.specs.Prelude.{◌≡◌, ◌==◌, ◌<◌, IfOk, OnOk};
ghost use Rattle.std.specs.List.{before_first, after_first};
ghost use Rattle.st_http.specs.Routes.{from_slash, path_of, is_absolute, name_in, routes, path_at, with_path, routed, RepresentsRoute};

use crate::path::{ALL, Path};
use matchit::Router;
use std::alloc::{AllocError, Global};

/// A request that is served: a method and a path.
#[derive(Clone, Copy, Debug, PartialEq, Eq)]
pub enum Endpoint {
    /// `GET /whoami`
    Whoami,
    /// `GET /tables`
    Tables,
    /// `GET /users`
    Users,
    /// `GET /users/{user}`
    User,
    /// `GET /tables/{table}/grants`
    Grants,
    /// `GET /namespaces/{namespace}/grants`
    NamespaceGrants,
    /// `POST /label`
    Label,
    /// `GET /audit`
    Audit,
    /// `POST /tables/{table}/get`
    Get,
    /// `POST /tables/{table}/scan`
    Scan,
    /// `POST /tables/{table}/count`
    Count,
    /// `POST /tables/{table}/grid`
    Grid,
    /// `POST /tables/{table}/plan`
    Plan,
    /// `POST /tables/{table}/put`
    Put,
    /// `POST /tables/{table}/delete`
    Delete,
    /// `POST /tables`
    CreateTable,
    /// `DELETE /tables/{table}`
    DropTable,
    /// `POST /tables/{table}/constraint`
    Constraint,
    /// `POST /tables/{table}/period`
    Period,
    /// `POST /users`
    CreateUser,
    /// `DELETE /users/{user}`
    DropUser,
    /// `POST /users/{user}/token`
    Token,
    /// `POST /users/{user}/auths`
    Auths,
    /// `POST /users/{user}/grant`
    GrantSystem,
    /// `POST /users/{user}/revoke`
    RevokeSystem,
    /// `POST /tables/{table}/grant`
    GrantTable,
    /// `POST /tables/{table}/revoke`
    RevokeTable,
    /// `POST /namespaces/{namespace}/grant`
    GrantNamespace,
    /// `POST /namespaces/{namespace}/revoke`
    RevokeNamespace,
}

/// What a method and a target name.
#[derive(Clone, Copy)]
pub enum Route<'a> {
    /// An endpoint, and the name in its path, not checked; empty where the path has none.
    Found(Endpoint, &'a str),
    /// No endpoint has this path: 404.
    NoRoute,
    /// The path has other methods, which `allow` lists: 405.
    BadMethod { allow: &'static str },
}

// Adds a path to the router.
fn add(router: &mut Router<Path>, path: Path) -> Result<(), AllocError>
    ensures { OnOk result (router.new ≡ with_path router.old path) }
{
    match router.insert(path.pattern(), path) {
        Ok(()) => Ok(()),
        Err(_) => Err(AllocError),
    }
}

/// The paths that the server serves.
#[derive(Drop)]
pub struct Routes {
    router: Router<Path>,
    ghost holds: { router ≡ routes },
}

impl Routes {
    /// The routes of all endpoints. It fails only when memory runs out.
    pub fn new(global: Global) -> Result<Routes, AllocError>
        ensures { IfOk result (λ made. made.router ≡ routes) }
    {
        let mut router = Router::new(global);
        for path in ALL {
            add(&mut router, path)?;
        }
        Ok(Routes { router })
    }

    // The known path that this path matches.
    fn at(&self, path: &str) -> Option<Path>
        ensures { result ≡ path_at path.now }
    {
        match self.router.at(path) {
            Ok(found) => Some(*found.value),
            Err(_) => None,
        }
    }

    #[tactic(auto, unfolding(crate::specs::Routes::routed))]
    // What a method and a target name.
    pub(crate) fn find<'a>(&self, method: &[u8], target: &'a str) -> Route<'a>
        ensures { RepresentsRoute result (routed method.now target.now) }
    {
        let path = target_path(target);
        let Some(found) = self.at(path) else {
            return Route::NoRoute;
        };
        match found.endpoint(method) {
            Some(endpoint) => Route::Found(endpoint, name(path)),
            None => Route::BadMethod {
                allow: found.allow(),
            },
        }
    }
}

// The text up to a mark, or all of it.
fn before(text: &str, mark: char) -> &str
    requires { mark < 128 }
    ensures { result.now ≡ before_first (λ b. b == mark) text.now }
{
    match text.split_once(mark) {
        Some((front, _)) => front,
        None => text,
    }
}

// The text after a mark.
fn after(text: &str, mark: char) -> &str
    requires { mark < 128 }
    ensures { result.now ≡ after_first (λ b. b == mark) text.now }
{
    match text.split_once(mark) {
        Some((_, rest)) => rest,
        None => "",
    }
}

// The name in a path.
fn name(path: &str) -> &str
    ensures { result.now ≡ name_in path.now }
{
    before(after(after(path, '/'), '/'), '/')
}

// The text from its first slash on, or a slash.
fn from_slash(text: &str) -> &str
    ensures { result.now ≡ from_slash text.now }
{
    match text.find('/') {
        Some(at) => &text[at..],
        None => "/",
    }
}

// Whether the text begins with `http://`, in any case.
fn is_absolute(text: &str) -> bool
    ensures { result ≡ is_absolute text.now }
{
    match text.as_bytes().get(..7) {
        Some(scheme) => scheme.eq_ignore_ascii_case(b"http://"),
        None => false,
    }
}

#[tactic(auto, unfolding(crate::specs::Routes::path_of))]
// The path of a target (RFC 9112, "Request Target").
fn target_path(target: &str) -> &str
    ensures { result.now ≡ path_of target.now }
{
    let front = before(target, '?');
    if is_absolute(front) {
        from_slash(after(after(front, '/'), '/'))
    } else {
        front
    }
}
