//! What may be asked of the server, and what is allowed to whom.
#![tactic(auto)]

mod asker_auths;
mod copy;
mod denial;
mod entry;
mod field_name;
mod limits;
mod needs;
mod policy;
mod refusal;
mod reply;
mod request;

pub use denial::Denial;
pub use entry::Entry;
pub use field_name::FieldName;
pub use limits::{Budget, Limit, Side};
pub use policy::decide;
pub use refusal::Refusal;
pub use reply::Reply;
pub use request::Request;
