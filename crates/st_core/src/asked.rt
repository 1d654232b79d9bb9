//! What is asked.
use st_dir::Name;
use st_policy::{Refusal, Request};
use std::alloc::{Allocator, Global};

/// Who asks: a user's name, and the SHA-256 (FIPS 180-4) of the secret that shows it.
#[derive(Drop)]
pub struct Token {
    pub name: Name,
    pub digest: [u8; 32],
}

/// A request, or the refusal of what could not be decoded as one.
#[derive(Drop)]
pub enum Call<A: Allocator = Global> {
    Good(Request<A>),
    Bad(Refusal),
}

/// What is asked, and by whom.
#[derive(Drop)]
pub struct Asked<A: Allocator = Global> {
    pub token: Option<Token>,
    pub call: Call<A>,
}

impl<A: Allocator> Asked<A> {
    ghost use Rattle.std.specs.Prelude.{◌≡◌};
    ghost use Rattle.st_core.specs.Step.{asks_for_change};

    /// Whether it asks for a change that could be decoded.
    pub fn is_change(&self) -> bool
        ensures { result ≡ asks_for_change self.now }
    {
        match &self.call {
            Call::Good(request) => request.is_change(),
            Call::Bad(_) => false,
        }
    }
}
