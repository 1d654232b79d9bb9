//! What the fields of a head say of its message (RFC 9112, "Field Syntax" and "Message Body Length").
ghost use Rattle.std.specs.Prelude.{◌≡◌, length, map, All};
ghost use Rattle.std.specs.List.{list_all};
ghost use Rattle.std.specs.Char.{is_ascii_digit};
ghost use Rattle.httparse.specs.Spans.{IsHeaderWithin, header_bytes};
ghost use Rattle.st_http.specs.Fields.{has_name, values_of, is_number, body_length_of, reason_status, reason_name};
ghost use Rattle.st_http.specs.inner.Values.{AreNamed, bounded_number};

use http::StatusCode;
use httparse::spans::HeaderSpan;

/// The most bytes of a body.
pub const BODY_LIMIT: usize = 65_536;

/// The rule that a text breaks when it is not a message.
#[derive(Clone, Copy, Debug, PartialEq, Eq)]
pub enum Reason {
    /// It does not begin with a request head (RFC 9112, "Request Line"), or Content-Length is repeated or not a number.
    Head,
    /// Host is missing in a request of HTTP/1.1, or repeated (RFC 9112, "Request Target").
    Host,
    /// The body has a transfer coding, which the server does not support (RFC 9112, "Transfer-Encoding").
    Length,
    /// The body is longer than `BODY_LIMIT`.
    Size,
    /// The head is longer than `HEAD_LIMIT`, or has more fields than `FIELD_LIMIT`.
    Headers,
}

impl Reason {
    /// The status code of the reply: 400, 411 or 413 (RFC 9110, "Status Codes"), or 431 (RFC 6585).
    pub fn status(self) -> StatusCode
        ensures { result ≡ reason_status self }
    {
        match self {
            Reason::Head | Reason::Host => StatusCode::BAD_REQUEST,
            Reason::Length => StatusCode::LENGTH_REQUIRED,
            Reason::Size => StatusCode::PAYLOAD_TOO_LARGE,
            Reason::Headers => StatusCode::REQUEST_HEADER_FIELDS_TOO_LARGE,
        }
    }

    /// The word for it in the reply's body.
    pub fn name(self) -> &'static str
        ensures { result.now ≡ reason_name self }
    {
        match self {
            Reason::Head => "head",
            Reason::Host => "host",
            Reason::Length => "length",
            Reason::Size => "size",
            Reason::Headers => "headers",
        }
    }
}

// Whether a name has no field, one with this value, or more than one.
#[derive(Clone, Copy)]
pub(crate) enum Named<'b> {
    Missing,
    Once(&'b [u8]),
    Repeated,
}

// Whether the field has this name, in any case.
pub(crate) fn is_named(text: &[u8], field: &HeaderSpan, name: &[u8]) -> bool
    requires { IsHeaderWithin (length text.now) field.now }
    ensures { result ≡ has_name name.now (header_bytes text.now field.now) }
{
    field.name.of(text).eq_ignore_ascii_case(name)
}

// The fields of a name.
pub(crate) fn find<'b>(text: &'b [u8], fields: &[HeaderSpan], name: &[u8]) -> Named<'b>
    requires { All (IsHeaderWithin (length text.now)) fields.now }
    ensures { AreNamed result (values_of name.now (map (header_bytes text.now) fields.now)) }
{
    let mut found = Named::Missing;
    for field in fields {
        if is_named(text, field, name) {
            found = match found {
                Named::Missing => Named::Once(field.value.of(text)),
                _ => Named::Repeated,
            };
        }
    }
    found
}

// Whether each byte is a digit.
fn are_digits(text: &[u8]) -> bool
    ensures { result ≡ list_all is_ascii_digit text.now }
{
    text.iter().all(|b| b.is_ascii_digit())
}

// Whether the text is one or more digits.
fn is_number(text: &[u8]) -> bool
    ensures { result ≡ is_number text.now }
{
    !text.is_empty() && are_digits(text)
}

// The number that digits write, or `BODY_LIMIT + 1` for a larger one.
fn number(text: &[u8]) -> Option<usize>
    ensures { result ≡ bounded_number text.now }
{
    if !is_number(text) {
        return None;
    }
    let mut number = 0;
    for b in text {
        number = (number * 10 + usize::from(b - b'0')).min(BODY_LIMIT + 1);
    }
    Some(number)
}

#[tactic(auto, unfolding(crate::specs::Fields::body_length_of))]
// The length of a message's body, or the first rule that the fields of its head break.
pub(crate) fn body_length(minor: u8, text: &[u8], fields: &[HeaderSpan]) -> Result<usize, Reason>
    requires { All (IsHeaderWithin (length text.now)) fields.now }
    ensures { result ≡ body_length_of minor (map (header_bytes text.now) fields.now) }
{
    match find(text, fields, b"host") {
        Named::Missing if minor == 1 => return Err(Reason::Host),
        Named::Repeated => return Err(Reason::Host),
        _ => {}
    }
    match find(text, fields, b"transfer-encoding") {
        Named::Missing => {}
        Named::Once(_) => return Err(Reason::Length),
        Named::Repeated => return Err(Reason::Length),
    }
    match find(text, fields, b"content-length") {
        Named::Missing => Ok(0),
        Named::Once(value) => match number(value) {
            Some(length) if length <= BODY_LIMIT => Ok(length),
            Some(_) => Err(Reason::Size),
            None => Err(Reason::Head),
        },
        Named::Repeated => Err(Reason::Head),
    }
}
