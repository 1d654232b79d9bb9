//! The answers whose texts are constant.
ghost use Rattle.std.specs.Prelude.{◌≡◌, true, false};
ghost use Rattle.st_connection.specs.Render.{fault_text as fault_text_of, busy_text as busy_text_of, accepted_text as accepted_text_of};
ghost use Rattle.st_connection.specs.Render.{continue_text as continue_text_of};

use st_http::fields::Reason;

#[tactic(auto, unfolding(crate::specs::Render::render, st_http::specs::Reply::head_text))]
// The answer to a text that is no message, with its body.
fn whole_fault_text(reason: Reason) -> &'static [u8]
    ensures { result.now ≡ fault_text_of reason false }
{
    match reason {
        Reason::Head =>
            b"HTTP/1.1 400 Bad Request\r\nContent-Type: application/json\r\nContent-Length: 16\r\nConnection: close\r\n\r\n{\"error\":\"head\"}",
        Reason::Host =>
            b"HTTP/1.1 400 Bad Request\r\nContent-Type: application/json\r\nContent-Length: 16\r\nConnection: close\r\n\r\n{\"error\":\"host\"}",
        Reason::Length =>
            b"HTTP/1.1 411 Length Required\r\nContent-Type: application/json\r\nContent-Length: 18\r\nConnection: close\r\n\r\n{\"error\":\"length\"}",
        Reason::Size =>
            b"HTTP/1.1 413 Payload Too Large\r\nContent-Type: application/json\r\nContent-Length: 16\r\nConnection: close\r\n\r\n{\"error\":\"size\"}",
        Reason::Headers =>
            b"HTTP/1.1 431 Request Header Fields Too Large\r\nContent-Type: application/json\r\nContent-Length: 19\r\nConnection: close\r\n\r\n{\"error\":\"headers\"}",
    }
}

#[tactic(auto, unfolding(crate::specs::Render::render, st_http::specs::Reply::head_text))]
// The answer to a HEAD request that is no message, which has no body.
fn bare_fault_text(reason: Reason) -> &'static [u8]
    ensures { result.now ≡ fault_text_of reason true }
{
    match reason {
        Reason::Head =>
            b"HTTP/1.1 400 Bad Request\r\nContent-Type: application/json\r\nConnection: close\r\n\r\n",
        Reason::Host =>
            b"HTTP/1.1 400 Bad Request\r\nContent-Type: application/json\r\nConnection: close\r\n\r\n",
        Reason::Length =>
            b"HTTP/1.1 411 Length Required\r\nContent-Type: application/json\r\nConnection: close\r\n\r\n",
        Reason::Size =>
            b"HTTP/1.1 413 Payload Too Large\r\nContent-Type: application/json\r\nConnection: close\r\n\r\n",
        Reason::Headers =>
            b"HTTP/1.1 431 Request Header Fields Too Large\r\nContent-Type: application/json\r\nConnection: close\r\n\r\n",
    }
}

/// The answer to a text that is no message, after which the connection is closed. `bare` says whether it is that of a HEAD request.
pub fn fault_text(reason: Reason, bare: bool) -> &'static [u8]
    ensures { result.now ≡ fault_text_of reason bare }
{
    if bare {
        bare_fault_text(reason)
    } else {
        whole_fault_text(reason)
    }
}

#[tactic(auto, unfolding(crate::specs::Render::render, st_http::specs::Reply::head_text))]
/// The answer for which no memory was found. `close` says whether the connection is closed after it, `bare` whether a HEAD request is
/// answered.
pub fn busy_text(close: bool, bare: bool) -> &'static [u8]
    ensures { result.now ≡ busy_text_of close bare }
{
    match (close, bare) {
        (false, false) =>
            b"HTTP/1.1 503 Service Unavailable\r\nContent-Type: application/json\r\nContent-Length: 18\r\n\r\n{\"error\":\"memory\"}",
        (true, false) =>
            b"HTTP/1.1 503 Service Unavailable\r\nContent-Type: application/json\r\nContent-Length: 18\r\nConnection: close\r\n\r\n{\"error\":\"memory\"}",
        (false, true) =>
            b"HTTP/1.1 503 Service Unavailable\r\nContent-Type: application/json\r\n\r\n",
        (true, true) =>
            b"HTTP/1.1 503 Service Unavailable\r\nContent-Type: application/json\r\nConnection: close\r\n\r\n",
    }
}

#[tactic(auto, unfolding(crate::specs::Render::render, st_http::specs::Reply::head_text))]
/// The answer to a change that was made. `close` says whether the connection is closed after it, `bare` whether a HEAD request is
/// answered.
pub fn accepted_text(close: bool, bare: bool) -> &'static [u8]
    ensures { result.now ≡ accepted_text_of close bare }
{
    match (close, bare) {
        (false, false) =>
            b"HTTP/1.1 200 OK\r\nContent-Type: application/json\r\nContent-Length: 11\r\n\r\n{\"ok\":true}",
        (true, false) =>
            b"HTTP/1.1 200 OK\r\nContent-Type: application/json\r\nContent-Length: 11\r\nConnection: close\r\n\r\n{\"ok\":true}",
        (false, true) => b"HTTP/1.1 200 OK\r\nContent-Type: application/json\r\n\r\n",
        (true, true) =>
            b"HTTP/1.1 200 OK\r\nContent-Type: application/json\r\nConnection: close\r\n\r\n",
    }
}

// The interim response, which says that a body is awaited.
pub(crate) fn continue_text() -> &'static [u8]
    ensures { result.now ≡ continue_text_of }
{
    b"HTTP/1.1 100 Continue\r\n\r\n"
}
