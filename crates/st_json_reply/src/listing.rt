//! Accounts, tables, grants and audit entries as JSON.
ghost use Rattle.std.specs.Prelude.{◌≡◌, OnOk};
ghost use Rattle.serde_json.specs.Data.{string};
ghost use Rattle.st_policy.specs.Periods.{period_name};
ghost use Rattle.st_json_reply.specs.inner.Adds.{tokens_of, Adds};
ghost use Rattle.st_json_reply.specs.Replies.{permission_data, account_data, table_data, grantee_data, entry_data};

use crate::member::{write_boolean, write_number, write_text};
use crate::written::{WriteJson, write_list};
use json::Writer;
use st_dir::{Account, Grantee, Name, Permission, TableInfo};
use st_key::Period;
use st_policy::Entry;
use st_text::CompactText;
use std::alloc::{AllocError, Allocator};

impl<B: Allocator> WriteJson for CompactText<B> {
    ghost written = { string };

    fn write_json<A: Allocator>(&self, out: &mut Writer<A>) -> Result<(), AllocError> {
        out.string(self.as_str())
    }
}

impl WriteJson for Name {
    ghost written = { string };

    fn write_json<A: Allocator>(&self, out: &mut Writer<A>) -> Result<(), AllocError> {
        out.string(self.as_str())
    }
}

impl WriteJson for Permission {
    ghost written = { permission_data };

    fn write_json<A: Allocator>(&self, out: &mut Writer<A>) -> Result<(), AllocError> {
        out.string(self.name())
    }
}

// A user's account.
pub(crate) fn write_account<A: Allocator, B: Allocator>(
    out: &mut Writer<A>,
    account: &Account<B>,
) -> Result<(), AllocError>
    ensures { OnOk result (Adds out.old out.new (tokens_of (account_data account.now))) }
{
    out.begin_object()?;
    write_list(out, "auths", account.auths.as_slice())?;
    write_list(out, "permissions", account.permissions.as_slice())?;
    write_text(out, "user", account.user.as_str())?;
    out.end_object()
}

// How a period is written.
fn name_of_period(period: Period) -> &'static str
    ensures { result.now ≡ period_name period }
{
    match period {
        Period::Day => "day",
        Period::Week => "week",
    }
}

impl WriteJson for TableInfo {
    ghost written = { table_data };

    fn write_json<A: Allocator>(&self, out: &mut Writer<A>) -> Result<(), AllocError> {
        out.begin_object()?;
        write_boolean(out, "constraint", self.constraint)?;
        write_text(out, "period", name_of_period(self.period))?;
        write_text(out, "table", self.table.as_str())?;
        out.end_object()
    }
}

impl<B: Allocator> WriteJson for Grantee<B> {
    ghost written = { grantee_data };

    fn write_json<A: Allocator>(&self, out: &mut Writer<A>) -> Result<(), AllocError> {
        out.begin_object()?;
        write_list(out, "permissions", self.permissions.as_slice())?;
        write_text(out, "user", self.user.as_str())?;
        out.end_object()
    }
}

impl WriteJson for Entry {
    ghost written = { entry_data };

    fn write_json<A: Allocator>(&self, out: &mut Writer<A>) -> Result<(), AllocError> {
        out.begin_object()?;
        write_text(out, "request", self.request.as_str())?;
        write_number(out, "result", u64::from(self.result))?;
        write_text(out, "target", self.target.as_str())?;
        write_text(out, "user", self.user.as_str())?;
        out.end_object()
    }
}
