//! Lists of values that are written as JSON.
ghost use Rattle.std.specs.Prelude.{◌∷◌, OnOk, map};
ghost use Rattle.json.specs.Token as token;
ghost use Rattle.serde_json.specs.Data.{Data};
ghost use Rattle.st_json_reply.specs.inner.Adds.{tokens_of, Adds};
ghost use Rattle.st_json_reply.specs.Replies.{list, listing};

use json::Writer;
use std::alloc::{AllocError, Allocator};

// A value that is written as JSON.
pub(crate) trait WriteJson {
    ghost written: { Self → Data };

    fn write_json<A: Allocator>(&self, out: &mut Writer<A>) -> Result<(), AllocError>
        ensures { OnOk result (Adds out.old out.new (tokens_of (written self.now))) };
}

// A key and a list.
pub(crate) fn write_list<A: Allocator, T: WriteJson>(
    out: &mut Writer<A>,
    name: &str,
    items: &[T],
) -> Result<(), AllocError>
    ensures { OnOk result (Adds out.old out.new (token.key name.now ∷ tokens_of (list (map T.written items.now)))) }
{
    out.key(name)?;
    out.begin_array()?;
    for item in items {
        item.write_json(out)?;
    }
    out.end_array()
}

// An object with a list alone.
pub(crate) fn write_listing<A: Allocator, T: WriteJson>(
    out: &mut Writer<A>,
    name: &str,
    items: &[T],
) -> Result<(), AllocError>
    ensures { OnOk result (Adds out.old out.new (tokens_of (listing name.now (map T.written items.now)))) }
{
    out.begin_object()?;
    write_list(out, name, items)?;
    out.end_object()
}
