//! The user and the secret that a head's Authorization field names (RFC 6750, "Authorization Request Header Field").
ghost use Rattle.std.specs.Prelude.{◌≡◌, length, map, All, position, true};
ghost use Rattle.std.specs.List.{list_all, before_first, after_first};
ghost use Rattle.std.specs.Option.{option_map};
ghost use Rattle.httparse.specs.Spans.{IsHeaderWithin, header_bytes};
ghost use Rattle.st_text.specs.Names.{is_dot, is_name_byte, is_name};
ghost use Rattle.st_http.specs.Token.{credentials_of, skip_spaces, is_bearer, credentials_in, token_of};

use crate::fields::{Named, find};
use hex::FromHex;
use httparse::spans::HeaderSpan;
use std::str::from_utf8;

/// The user and the secret of a bearer token.
#[derive(Clone, Copy)]
pub struct Credentials<'a> {
    /// 1 to 32 of the characters `A-Z a-z 0-9 _`.
    pub user: &'a str,
    /// What the 64 hexadecimal digits behind the dot write.
    pub secret: [u8; 32],
    ghost named: { is_name user.now ≡ true },
}

// Whether a name may have each of these bytes.
fn are_name_bytes(text: &[u8]) -> bool
    ensures { result ≡ list_all is_name_byte text.now }
{
    text.iter().all(|b| b.is_ascii_alphanumeric() || *b == b'_')
}

// Whether the text is a name.
fn is_name(text: &[u8]) -> bool
    ensures { result ≡ is_name text.now }
{
    !text.is_empty() && text.len() <= 32 && are_name_bytes(text)
}

// The place of the first dot.
fn dot(text: &[u8]) -> Option<usize>
    ensures { result ≡ position is_dot text.now }
{
    text.iter().position(|b| *b == b'.')
}

// The text up to its first dot, and the text after it.
fn split_dot(text: &[u8]) -> (&[u8], &[u8])
    ensures before { result.0.now ≡ before_first is_dot text.now }
    ensures after { result.1.now ≡ after_first is_dot text.now }
{
    match dot(text) {
        Some(at) => (&text[..at], &text[at + 1..]),
        None => (text, &[]),
    }
}

// A user name, a dot and the digits of a secret.
fn parse_credentials(text: &[u8]) -> Option<Credentials>
    ensures { option_map (λ found. (found.user.now, found.secret)) result ≡ credentials_of text.now }
{
    let (user, digits) = split_dot(text);
    if !is_name(user) {
        return None;
    }
    let Ok(secret) = <[u8; 32] as FromHex>::from_hex(digits) else {
        return None;
    };
    match from_utf8(user) {
        Ok(user) => Some(Credentials { user, secret }),
        Err(_) => unreachable!(),
    }
}

// The text without its leading spaces.
fn skip_spaces(text: &[u8]) -> &[u8]
    ensures { result.now ≡ skip_spaces text.now }
{
    match text {
        [b' ', rest @ ..] => skip_spaces(rest),
        _ => text,
    }
}

// Whether the value begins with the scheme and a space.
fn is_bearer(value: &[u8]) -> bool
    ensures { result ≡ is_bearer value.now }
{
    value.len() > 6 && value[..6].eq_ignore_ascii_case(b"bearer") && value[6] == b' '
}

#[tactic(auto, unfolding(crate::specs::Token::credentials_in))]
// The credentials in the value of an Authorization field.
fn credentials_in(value: &[u8]) -> Option<Credentials>
    ensures { option_map (λ found. (found.user.now, found.secret)) result ≡ credentials_in value.now }
{
    if !is_bearer(value) {
        return None;
    }
    parse_credentials(skip_spaces(&value[6..]))
}

#[tactic(auto, unfolding(crate::specs::Token::token_of))]
// The credentials of a head that has one Authorization field.
pub(crate) fn token<'b>(text: &'b [u8], fields: &[HeaderSpan]) -> Option<Credentials<'b>>
    requires { All (IsHeaderWithin (length text.now)) fields.now }
    ensures { option_map (λ found. (found.user.now, found.secret)) result ≡ token_of (map (header_bytes text.now) fields.now) }
{
    match find(text, fields, b"authorization") {
        Named::Once(value) => credentials_in(value),
        Named::Missing => None,
        Named::Repeated => None,
    }
}
