//! Authorizations.
ghost use Rattle.std.specs.Prelude.{◌≡◌, find, not};
ghost use Rattle.st_dir.specs.Directory.{has_auth};
ghost use Rattle.st_label.specs.Reading.{is_true};

use st_auth::{Auths, satisfies};
use st_dir::{Directory, Name};
use st_label::Label;
use st_text::Text;
use std::alloc::Allocator;

// The first of the names that is not the asker's own.
pub(crate) fn lacking<A: Allocator>(
    directory: &Directory<A>,
    asker: &Name,
    names: &Auths<A>,
) -> Option<Text<256>>
    ensures { result ≡ find (λ name. not (has_auth directory.now asker.now name)) names.now }
{
    let held = directory.auths_of(asker.as_str());
    match held.missing_from(names) {
        Some(name) => Text::new(name),
        None => None,
    }
}

// Whether the asker's authorizations, all of them, see the label.
pub(crate) fn sees<A: Allocator>(directory: &Directory<A>, asker: &Name, label: &Label<A>) -> bool
    ensures { result ≡ is_true (has_auth directory.now asker.now) label.now }
{
    satisfies(label, directory.auths_of(asker.as_str()))
}

// The text of a label.
pub(crate) fn text_of_label<A: Allocator>(label: &Label<A>) -> Text<256>
    ensures { result ≡ label.now }
{
    match Text::new(label.text()) {
        Some(text) => text,
        None => unreachable!(),
    }
}
