//! Laws of the definitions, for every reply.
ghost use Rattle.std.specs.Prelude.{◌≡◌, true};
ghost use Rattle.st_policy.specs.declared.reply.Reply.{Reply};
ghost use Rattle.st_json_reply.specs.inner.Order.{keys_rise};
ghost use Rattle.st_json_reply.specs.Replies.{reply_data};

use std::alloc::Allocator;

/// The keys of each object in a reply are in byte order, each once.
pub fn keys_in_order<A: Allocator>()
    ensures { (r : Reply A) → keys_rise (reply_data r) ≡ true }
{}
