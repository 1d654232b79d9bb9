//! Entries of the audit listing.
ghost use Rattle.std.specs.Prelude.{◌≡◌};
ghost use Rattle.st_policy.specs.Requests.{request_name, target_of};

use crate::request::Request;
use st_dir::Name;
use st_text::Text;
use std::alloc::Allocator;

/// One change that was asked for by a user whose token held.
#[derive(Drop)]
pub struct Entry {
    /// The name of its line in the table of requests.
    pub request: Text<16>,
    /// The number of its refusal, or 0.
    pub result: u8,
    /// The table that it was about, or nothing.
    pub target: Text<65>,
    /// Who asked.
    pub user: Name,
}

impl Entry {
    ghost use Rattle.st_policy.specs.Entries.{entry_of};

    /// The entry of a request, with the number of its refusal, or 0.
    pub fn of<A: Allocator>(asker: &Name, request: &Request<A>, number: u8) -> Entry
        ensures { result ≡ entry_of asker.now request.now number }
    {
        Entry {
            request: text_of_name(request),
            result: number,
            target: text_of_target(request),
            user: asker.copy(),
        }
    }

    /// An equal entry.
    pub fn copy(&self) -> Entry
        ensures { result ≡ self.now }
    {
        Entry {
            request: self.request.copy(),
            result: self.result,
            target: self.target.copy(),
            user: self.user.copy(),
        }
    }
}

// The name of a request's line.
fn text_of_name<A: Allocator>(request: &Request<A>) -> Text<16>
    ensures { result ≡ request_name request.now }
{
    match Text::new(request.name()) {
        Some(text) => text,
        None => unreachable!(),
    }
}

// What a request is about.
fn text_of_target<A: Allocator>(request: &Request<A>) -> Text<65>
    ensures { result ≡ target_of request.now }
{
    match Text::new(request.target()) {
        Some(text) => text,
        None => unreachable!(),
    }
}
