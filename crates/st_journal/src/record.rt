//! The record of a change.
ghost use Rattle.std.specs.Prelude.{◌≡◌, IfOk};

use st_text::Words;
use std::alloc::AllocError;

/// A change as a journal keeps it: who asked for what, when, and what came of it. It holds no secret.
#[derive(Drop)]
pub struct Record {
    /// Milliseconds since 1970-01-01 00:00 UTC. They are for people: no state depends on them.
    pub time: i64,
    /// The name of the user who asked.
    pub user: Words,
    /// What was asked, as the audit listing calls it.
    pub request: Words,
    /// The name in the path of the request; empty where it has none.
    pub name: Words,
    /// The body of the request, as it came; empty if the endpoint reads none.
    pub body: Words,
    /// The body of the reply.
    pub result: Words,
}

impl Record {
    /// An equal record, or an error when memory runs out.
    pub fn copy(&self) -> Result<Record, AllocError>
        ensures { IfOk result (λ copy. copy ≡ self.now) }
    {
        let user = self.user.copy()?;
        let request = self.request.copy()?;
        let name = self.name.copy()?;
        let body = self.body.copy()?;
        let result = self.result.copy()?;
        Ok(Record {
            time: self.time,
            user,
            request,
            name,
            body,
            result,
        })
    }
}
