//! The first message of a text.
ghost use Rattle.std.specs.Prelude.{◌≡◌, ◌≤◌, length, take, drop};
ghost use Rattle.httparse.specs.Grammar.{RequestHead, print_request};
ghost use Rattle.httparse.specs.Spans.{IsRequestWithin, IsRequestOf, IsRequestAt};
ghost use Rattle.st_http.specs.Head.{window as window_of};
ghost use Rattle.st_http.specs.Fields.{body_length_of};
ghost use Rattle.st_http.specs.First.{First, expects, with_body, fields_of};
ghost use Rattle.st_http.specs.inner.Takes.{Represents, Takes, FitsIn};

use crate::close::{closes, expects};
use crate::fields::{Reason, body_length};
use crate::head::{FIELD_LIMIT, HEAD_LIMIT, HeadRead, is_bare, read_head};
use crate::routes::{Route, Routes};
use crate::token::{Credentials, token};
use httparse::spans::{EMPTY_HEADER_SPAN, HeaderSpan, RequestSpans};
use std::str::from_utf8;

/// A request.
#[derive(Clone, Copy)]
pub struct Message<'a> {
    /// What its method and its target name.
    pub route: Route<'a>,
    /// The user and the secret of its bearer token; none without a well-formed one.
    pub token: Option<Credentials<'a>>,
    /// Its body, at most `BODY_LIMIT` bytes.
    pub body: &'a [u8],
    /// Whether the connection is closed after it.
    pub close: bool,
    /// Whether it is a HEAD request, so that the reply has no body (RFC 9110, "HEAD").
    pub bare: bool,
    /// Whether its client may have waited with the body to hear `100 Continue` (RFC 9110, "Expect").
    pub expects: bool,
}

/// Why the text is not a message. The connection is closed after the reply.
#[derive(Clone, Copy)]
pub struct Fault {
    /// The rule that the text breaks.
    pub reason: Reason,
    /// Whether it is a HEAD request, so that the reply has no body (RFC 9110, "HEAD").
    pub bare: bool,
}

/// What a text begins with.
#[derive(Clone, Copy)]
pub enum Take<'a> {
    /// A message, and its length in bytes.
    Message(Message<'a>, usize),
    /// The text is too short to tell; it has fewer than `HEAD_LIMIT + BODY_LIMIT` bytes. The flag says whether its head is whole
    /// and its client may wait with the body to hear `100 Continue`.
    More(bool),
    /// The text is not a message, whatever follows.
    Fault(Fault),
}

impl Take<'_> {
    /// Whether the client of what stands there may wait with its body to hear `100 Continue`, whether or not the body came.
    pub fn expects(&self) -> bool
        ensures { (first : First) → Represents first self.now → result ≡ expects first }
    {
        match self {
            Take::Message(message, _) => message.expects,
            Take::More(expects) => *expects,
            Take::Fault(_) => false,
        }
    }
}

// The text up to a limit.
fn front(text: &[u8], limit: usize) -> &[u8]
    ensures bytes { result.now ≡ take limit text.now }
    ensures few { length result.now ≤ limit }
    ensures within { length result.now ≤ length text.now }
{
    if text.len() > limit {
        &text[..limit]
    } else {
        text
    }
}

#[tactic(auto, unfolding(crate::specs::Head::window))]
// The bytes among which a head must end.
fn window(text: &[u8]) -> &[u8]
    ensures bytes { result.now ≡ window_of text.now }
    ensures few { length result.now ≤ HEAD_LIMIT }
    ensures within { length result.now ≤ length text.now }
{
    front(text, HEAD_LIMIT)
}

// The message of a head, once its body is there.
fn item<'a>(
    routes: &'a Routes,
    text: &'a [u8],
    window: &'a [u8],
    head: RequestSpans,
    headers: &[HeaderSpan],
    bare: bool,
) -> Take<'a>
    requires within { IsRequestWithin window.now headers.now head }
    requires whole { IsRequestOf window.now headers.now head }
    requires text { head.len ≤ length text.now }
    ensures { (h : RequestHead) → IsRequestAt window.now headers.now head h
        → Represents (with_body h (drop (length (print_request h)) text.now) bare (body_length_of h.minor (fields_of h))) result }
{
    let fields = &headers[..head.headers];
    let length = match body_length(head.version, window, fields) {
        Ok(length) => length,
        Err(reason) => return Take::Fault(Fault { reason, bare }),
    };
    let expects = expects(head.version, window, fields, length);
    let after = &text[head.len..];
    if after.len() < length {
        return Take::More(expects);
    }
    let Ok(target) = from_utf8(head.path.of(window)) else {
        unreachable!();
    };
    let message = Message {
        route: routes.find(head.method.of(window), target),
        token: token(window, fields),
        body: &after[..length],
        close: closes(head.version, window, fields),
        bare,
        expects,
    };
    Take::Message(message, head.len + length)
}

impl Routes {
    /// What a text begins with. More text behind it does not change the answer, unless that is `More`. It allocates nothing.
    pub fn take<'a>(&'a self, text: &'a [u8]) -> Take<'a>
        ensures first { Takes text.now result }
        ensures within { FitsIn (length text.now) result }
    {
        let window = window(text);
        let bare = is_bare(window);
        let mut headers = [EMPTY_HEADER_SPAN; FIELD_LIMIT];
        let reason = match read_head(window, &mut headers) {
            HeadRead::Whole(head) => return item(self, text, window, head, &headers, bare),
            HeadRead::Begun if text.len() < HEAD_LIMIT => return Take::More(false),
            HeadRead::Begun => Reason::Headers,
            HeadRead::Crowded => Reason::Headers,
            HeadRead::Hopeless => Reason::Head,
        };
        Take::Fault(Fault { reason, bare })
    }
}
