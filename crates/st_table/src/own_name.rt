//! A row's name, apart from the row.
ghost use Rattle.std.specs.Prelude.{◌≡◌, ◌≤◌, length};

use st_index::Row;
use st_text::Text;
use std::alloc::Allocator;

// An id and a label's text, which lie in the value itself.
#[derive(Drop)]
pub(crate) struct OwnName {
    pub id: Text<64>,
    pub label: Text<256>,
}

// A short text, which lies in the value itself.
fn own<const CAP: usize>(text: &str) -> Text<CAP>
    requires { length text.now ≤ CAP }
    ensures { result ≡ text.now }
{
    match Text::new(text) {
        Some(text) => text,
        None => unreachable!(),
    }
}

impl OwnName {
    /// The name of a row.
    pub fn of<A: Allocator>(row: &Row<A>) -> OwnName
        ensures id { result.id ≡ row.now.id }
        ensures label { result.label ≡ row.now.label }
    {
        OwnName {
            id: own(row.id.as_str()),
            label: own(row.label.text()),
        }
    }
}
