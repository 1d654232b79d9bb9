//! Remembered verdicts, in a memory of one.

use st_auth::{Auths, Verdicts};
use st_label::Label;
use std::alloc::Global;
use std::num::NonZeroUsize;

// What a memory of verdicts is asked: a label under a set of one name, or of none.
type Asked = (&'static str, Option<&'static str>, bool);

const ASKED: [Asked; 4] = [
    ("A", Some("A"), true),
    ("A", None, false),
    ("B", Some("B"), true),
    ("A", Some("A"), true),
];

// The set of one name, or of none.
fn set(alloc: Global, name: Option<&str>) -> Option<Auths> {
    match name {
        Some(name) => Auths::from_list(alloc, &[name]).ok(),
        None => Some(Auths::none(alloc)),
    }
}

// What a memory of verdicts answers.
fn answer(
    alloc: Global,
    verdicts: &mut Verdicts<Global>,
    label: &str,
    name: Option<&str>,
) -> Option<bool> {
    let label = Label::parse(alloc, label).ok()?;
    let auths = set(alloc, name)?;
    Some(verdicts.ask(&label, &auths))
}

// Whether a memory of verdicts answers each in turn.
fn answers_each(alloc: Global, verdicts: &mut Verdicts<Global>) -> bool {
    for (label, name, wanted) in ASKED {
        if answer(alloc, verdicts, label, name) != Some(wanted) {
            return false;
        }
    }
    true
}

// Whether a memory of one verdict does.
fn are_answered(alloc: Global) -> Option<bool> {
    let mut verdicts = Verdicts::new(alloc, NonZeroUsize::MIN).ok()?;
    Some(answers_each(alloc, &mut verdicts))
}

#[test]
fn verdicts(rt: HostRuntime) {
    assert!(rt; are_answered(rt.alloc()) == Some(true));
}
