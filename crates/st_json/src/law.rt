//! Laws of the definitions, for every body.
ghost use Rattle.std.specs.Prelude.{◌≡◌, ℕ, List, Result};
ghost use Rattle.st_http.specs.declared.routes.Endpoint.{Endpoint};
ghost use Rattle.st_policy.specs.declared.request.Request.{Request};
ghost use Rattle.st_policy.specs.declared.refusal.Refusal.{Refusal};
ghost use Rattle.st_json.specs.Bodies.{Decoded};

use std::alloc::Allocator;

/// An endpoint, a name and a body have at most one answer.
pub fn one_answer<A: Allocator>()
    ensures { (l : Endpoint) (name body : List ℕ) (a b : Result (Request A) Refusal) → Decoded l name body a
        → Decoded l name body b → a ≡ b }
{}

/// An endpoint, a name and a body have an answer.
pub fn some_answer<A: Allocator>()
    ensures { (l : Endpoint) (name body : List ℕ) → (answer : Result (Request A) Refusal) × Decoded l name body answer }
{}
