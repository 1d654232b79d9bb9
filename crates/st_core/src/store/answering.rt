//! What a store answers to reads.
ghost use Rattle.std.specs.Prelude.{◌≡◌, None, true, false, IfOk};
ghost use Rattle.st_dir.specs.Directory.{is_table};
ghost use Rattle.st_dir.specs.Listings.{grants_on};
ghost use Rattle.st_grant.specs.declared.grant.Scope.TheVariants.{OnTable};
ghost use Rattle.st_policy.specs.Policy.{refusal_of};
ghost use Rattle.st_policy.specs.Requests.{is_change, table_of};
ghost use Rattle.st_core.specs.Reads.{account, shown};
ghost use Rattle.st_policy.specs.declared.reply.Reply as Reply;
ghost use Rattle.st_core.specs.Step.{asks_for_change, step};

use crate::asked::Asked;
use crate::judged::{JudgedRef, judge};
use crate::store::{Store, audit};
use st_dir::{Directory, DirectoryFault, Name, TableName};
use st_policy::{Refusal, Reply, Request};
use std::alloc::{AllocError, Allocator};

// A user's account, where there is such a user.
fn account<A: Allocator + Copy>(
    directory: &Directory<A>,
    user: &Name,
) -> Result<Reply<A>, AllocError>
    ensures { IfOk result (λ reply. reply ≡ account directory.now user.now) }
{
    match directory.who(user.as_str())? {
        Some(account) => Ok(Reply::Who(account)),
        None => Ok(Reply::Refused(Refusal::NoUser { user: user.copy() })),
    }
}

// Who has been granted what on a table.
fn grants<A: Allocator + Copy>(
    directory: &Directory<A>,
    table: &TableName,
) -> Result<Reply<A>, AllocError>
    requires { is_table directory.now table.now ≡ true }
    ensures { IfOk result (λ reply. reply ≡ Reply.Grants (grants_on directory.now (OnTable table.now))) }
{
    match directory.grants(table) {
        Ok(grants) => Ok(Reply::Grants(grants)),
        Err(DirectoryFault::NoMemory) => Err(AllocError),
        Err(_) => unreachable!(),
    }
}

impl<A: Allocator + Copy> Store<A> {
    // What a read of no table shows to whom it is allowed.
    fn read_without_table(&self, asker: &Name, request: &Request<A>) -> Result<Reply<A>, AllocError>
        requires read { is_change request.now ≡ false }
        requires no_table { table_of request.now ≡ None }
        ensures { IfOk result (λ reply. reply ≡ shown self.now asker.now request.now) }
    {
        match request {
            Request::Whoami => account(&self.directory, asker),
            Request::Tables => Ok(Reply::Tables(self.directory.tables()?)),
            Request::Users => Ok(Reply::Users(self.directory.users()?)),
            Request::User { user } => account(&self.directory, user),
            Request::NamespaceGrants { namespace } => Ok(Reply::Grants(
                self.directory.namespace_grants(namespace)?,
            )),
            Request::Label { label } => Ok(Reply::Normal {
                label: label.normal()?,
            }),
            Request::Audit => Ok(Reply::Audit(audit::listing(self.allocator(), &self.audit)?)),
            _ => unreachable!(),
        }
    }

    // What a read shows to whom it is allowed.
    fn read(&self, asker: &Name, request: &Request<A>) -> Result<Reply<A>, AllocError>
        requires read { is_change request.now ≡ false }
        requires allowed { refusal_of self.now.directory asker.now request.now ≡ None }
        ensures { IfOk result (λ reply. reply ≡ shown self.now asker.now request.now) }
    {
        match request {
            Request::Grants { table } => grants(&self.directory, table),
            Request::Get { table, id, auths } => {
                Ok(Reply::Rows(self.get(table, id.as_str(), auths)?))
            }
            Request::Scan {
                table,
                query,
                auths,
                limit,
                after,
            } => self.page(table, query, auths, *limit, after),
            Request::Count {
                table,
                query,
                auths,
            } => Ok(Reply::Count(self.count(table, query, auths))),
            Request::Grid {
                table,
                query,
                auths,
                columns,
                lines,
            } => Ok(Reply::Grid(self.grid(table, query, auths, *columns, *lines)?)),
            Request::Plan {
                table,
                query,
                budget,
            } => Ok(Reply::Plan(self.plan(table, query, *budget)?)),
            _ => self.read_without_table(asker, request),
        }
    }

    /// The reply to what asks for no change. It changes nothing.
    pub fn answer(&self, asked: &Asked<A>) -> Result<Reply<A>, AllocError>
        requires { asks_for_change asked.now ≡ false }
        ensures { IfOk result (λ reply. reply ≡ (step self.now asked.now).reply) }
    {
        match judge(&self.directory, asked) {
            JudgedRef::Unheard(refusal) => Ok(Reply::Refused(refusal)),
            JudgedRef::Heard {
                refusal: Some(refusal),
                ..
            } => Ok(Reply::Refused(refusal)),
            JudgedRef::Heard {
                asker,
                request,
                refusal: None,
            } => self.read(asker, request),
        }
    }
}
