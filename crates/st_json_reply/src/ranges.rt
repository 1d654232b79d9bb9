//! Counts and ranges of addresses as JSON.
ghost use Rattle.std.specs.Prelude.{◌∷◌, [], OnOk, codes};
ghost use Rattle.json.specs.Token as token;
ghost use Rattle.st_json_reply.specs.inner.Adds.{tokens_of, Adds};
ghost use Rattle.st_json_reply.specs.Refusals.{nat};
ghost use Rattle.st_json_reply.specs.Replies.{list, range_data, part_data};

use crate::written::{WriteJson, write_list};
use json::Writer;
use st_plan::{PartPlan, Range};
use std::alloc::{AllocError, Allocator};

impl WriteJson for u64 {
    ghost written = { nat };

    fn write_json<A: Allocator>(&self, out: &mut Writer<A>) -> Result<(), AllocError> {
        out.u64(*self)
    }
}

impl WriteJson for Range {
    ghost written = { range_data };

    fn write_json<A: Allocator>(&self, out: &mut Writer<A>) -> Result<(), AllocError> {
        out.begin_array()?;
        out.u64(self.lo)?;
        out.u64(self.hi)?;
        out.boolean(self.exact)?;
        out.end_array()
    }
}

// The first and the last of the bins.
fn write_bins<A: Allocator>(out: &mut Writer<A>, first: u32, last: u32) -> Result<(), AllocError>
    ensures { OnOk result (Adds out.old out.new (token.key (codes "bins") ∷ tokens_of (list (nat first ∷ nat last ∷ [])))) }
{
    let numbers = [u64::from(first), u64::from(last)];
    write_list(out, "bins", &numbers)
}

impl<B: Allocator> WriteJson for PartPlan<B> {
    ghost written = { part_data };

    fn write_json<A: Allocator>(&self, out: &mut Writer<A>) -> Result<(), AllocError> {
        out.begin_object()?;
        write_bins(out, self.bin_lo, self.bin_hi)?;
        write_list(out, "ranges", self.ranges.as_slice())?;
        out.end_object()
    }
}
