//! Fields whose values are lists of words (RFC 9110, "Lists").
ghost use Rattle.std.specs.Prelude.{◌≡◌, reverse, length, map, All};
ghost use Rattle.std.specs.List.{list_any};
ghost use Rattle.httparse.specs.Grammar.{skip_ows, trim_ows};
ghost use Rattle.httparse.specs.Spans.{IsHeaderWithin, header_bytes};
ghost use Rattle.st_http.specs.Fields.{is_word, lists, field_lists};

use crate::fields::is_named;
use httparse::spans::HeaderSpan;

// The text without leading white space.
fn trim_start(text: &[u8]) -> &[u8]
    ensures { result.now ≡ skip_ows text.now }
{
    match text {
        [b' ', rest @ ..] => trim_start(rest),
        [b'\t', rest @ ..] => trim_start(rest),
        _ => text,
    }
}

// The text without trailing white space.
fn trim_end(text: &[u8]) -> &[u8]
    ensures { result.now ≡ reverse (skip_ows (reverse text.now)) }
{
    match text {
        [rest @ .., b' '] => trim_end(rest),
        [rest @ .., b'\t'] => trim_end(rest),
        _ => text,
    }
}

#[tactic(auto, unfolding(httparse::specs::Grammar::trim_ows))]
// The text without the white space around it.
fn trim(text: &[u8]) -> &[u8]
    ensures { result.now ≡ trim_ows text.now }
{
    trim_end(trim_start(text))
}

// Whether the item of a list is the word.
fn is_word(item: &[u8], word: &[u8]) -> bool
    ensures { result ≡ is_word word.now item.now }
{
    trim(item).eq_ignore_ascii_case(word)
}

// Whether the word is an item of the list.
fn has_word(list: &[u8], word: &[u8]) -> bool
    ensures { result ≡ lists word.now list.now }
{
    list.split(|b| *b == b',').any(|item| is_word(item, word))
}

// Whether a field of this name lists the word.
pub(crate) fn any_lists(text: &[u8], fields: &[HeaderSpan], name: &[u8], word: &[u8]) -> bool
    requires { All (IsHeaderWithin (length text.now)) fields.now }
    ensures { result ≡ list_any (field_lists name.now word.now) (map (header_bytes text.now) fields.now) }
{
    for field in fields {
        if is_named(text, field, name) && has_word(field.value.of(text), word) {
            return true;
        }
    }
    false
}
