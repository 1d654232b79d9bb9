//! Whether the connection is closed after a request (RFC 9112, "Persistence"), and whether its client waits to hear that its body is
//! awaited (RFC 9110, "Expect").
ghost use Rattle.std.specs.Prelude.{◌≡◌, length, map, All};
ghost use Rattle.httparse.specs.Spans.{IsHeaderWithin, header_bytes};
ghost use Rattle.st_http.specs.Fields.{closes_after, expects_continue};

use crate::lists::any_lists;
use httparse::spans::HeaderSpan;

#[tactic(auto, unfolding(crate::specs::Fields::closes_after))]
// Whether the connection is closed after a message with this head.
pub(crate) fn closes(minor: u8, text: &[u8], fields: &[HeaderSpan]) -> bool
    requires { All (IsHeaderWithin (length text.now)) fields.now }
    ensures { result ≡ closes_after minor (map (header_bytes text.now) fields.now) }
{
    minor == 0 || any_lists(text, fields, b"connection", b"close")
}

#[tactic(auto, unfolding(crate::specs::Fields::expects_continue))]
// Whether the client may wait with a body of this length until it hears that it is awaited.
pub(crate) fn expects(minor: u8, text: &[u8], fields: &[HeaderSpan], size: usize) -> bool
    requires { All (IsHeaderWithin (length text.now)) fields.now }
    ensures { result ≡ expects_continue minor (map (header_bytes text.now) fields.now) size }
{
    minor == 1 && size > 0 && any_lists(text, fields, b"expect", b"100-continue")
}
