//! Members of objects: a key and a plain value.
ghost use Rattle.std.specs.Prelude.{◌∷◌, [], OnOk, decimal};
ghost use Rattle.json.specs.Token as token;
ghost use Rattle.st_json_reply.specs.inner.Adds.{Adds};

use json::Writer;
use std::alloc::{AllocError, Allocator};

// A key and a text.
pub(crate) fn write_text<A: Allocator>(
    out: &mut Writer<A>,
    name: &str,
    text: &str,
) -> Result<(), AllocError>
    ensures { OnOk result (Adds out.old out.new (token.key name.now ∷ token.string text.now ∷ [])) }
{
    out.key(name)?;
    out.string(text)
}

// A key and a number.
pub(crate) fn write_number<A: Allocator>(
    out: &mut Writer<A>,
    name: &str,
    n: u64,
) -> Result<(), AllocError>
    ensures { OnOk result (Adds out.old out.new (token.key name.now ∷ token.number (decimal n) ∷ [])) }
{
    out.key(name)?;
    out.u64(n)
}

// A key and a Boolean.
pub(crate) fn write_boolean<A: Allocator>(
    out: &mut Writer<A>,
    name: &str,
    value: bool,
) -> Result<(), AllocError>
    ensures { OnOk result (Adds out.old out.new (token.key name.now ∷ token.boolean value ∷ [])) }
{
    out.key(name)?;
    out.boolean(value)
}
