//! Equal copies of what is asked.
ghost use Rattle.std.specs.Prelude.{◌≡◌, IfOk};

use crate::asked::{Asked, Call, Token};
use std::alloc::{AllocError, Allocator};

impl Token {
    /// An equal token.
    pub fn copy(&self) -> Token
        ensures { result ≡ self.now }
    {
        Token {
            name: self.name.copy(),
            digest: self.digest,
        }
    }
}

/// An equal token, where there is one.
pub fn copy_token(token: &Option<Token>) -> Option<Token>
    ensures { result ≡ token.now }
{
    match token {
        Some(token) => Some(token.copy()),
        None => None,
    }
}

impl<A: Allocator + Copy> Call<A> {
    /// An equal call, or an error where there is no memory for it.
    pub fn copy(&self) -> Result<Call<A>, AllocError>
        ensures { IfOk result (λ other. other ≡ self.now) }
    {
        Ok(match self {
            Call::Good(request) => Call::Good(request.copy()?),
            Call::Bad(refusal) => Call::Bad(refusal.copy()),
        })
    }
}

impl<A: Allocator + Copy> Asked<A> {
    /// An equal copy, or an error where there is no memory for it.
    pub fn copy(&self) -> Result<Asked<A>, AllocError>
        ensures { IfOk result (λ other. other ≡ self.now) }
    {
        let call = self.call.copy()?;
        Ok(Asked {
            token: copy_token(&self.token),
            call,
        })
    }
}
