//! What a store makes of changes.
ghost use Rattle.std.specs.Prelude.{◌≡◌, None, Some, true, Ok, IsOk, IsErr, IfOk, IfErr, OnOk, OnErr};
ghost use Rattle.st_dir.specs.Directory.{is_user};
ghost use Rattle.st_dir.specs.declared.fault.DirectoryFault.TheVariants.{NoMemory};
ghost use Rattle.st_policy.specs.Policy.{refusal_of};
ghost use Rattle.st_policy.specs.Requests.{is_change};
ghost use Rattle.st_core.specs.declared.asked.Call.{Call};
ghost use Rattle.st_core.specs.Changes.{rows_after, directory_after};
ghost use Rattle.st_core.specs.Judging.{JudgesChange, judgement};
ghost use Rattle.st_core.specs.Step.{Heard, asks_for_change, judge_call, settle, step};

use crate::asked::Asked;
use crate::judged::{JudgedRef, judge, refusal};
use crate::store::Store;
use st_dir::{Directory, DirectoryFault, Name};
use st_policy::{Refusal, Reply, Request};
use std::alloc::{AllocError, Allocator};

// An allowed change fails only when out of memory.
fn made(outcome: Result<(), DirectoryFault>) -> Result<(), AllocError>
    requires { IfErr outcome (λ fault. fault ≡ NoMemory) }
    ensures ok { OnOk result (IsOk outcome) }
    ensures err { OnErr result (IsErr outcome) }
{
    match outcome {
        Ok(()) => Ok(()),
        Err(DirectoryFault::NoMemory) => Err(AllocError),
        Err(_) => unreachable!(),
    }
}

// What is allowed and takes no memory cannot fail.
pub(crate) fn done(outcome: Result<(), DirectoryFault>) -> Result<(), AllocError>
    requires { IsOk outcome }
    ensures { result ≡ Ok tt }
{
    match outcome {
        Ok(()) => Ok(()),
        Err(_) => unreachable!(),
    }
}

// Makes the change that a request makes to the directory. When out of memory the directory stays as it was.
pub(crate) fn change_directory<A: Allocator + Copy>(
    directory: &mut Directory<A>,
    asker: &Name,
    request: &Request<A>,
) -> Result<(), AllocError>
    requires known { is_user directory.old asker.now ≡ true }
    requires allowed { refusal_of directory.old asker.now request.now ≡ None }
    ensures ok { OnOk result (directory.new ≡ directory_after asker.now request.now directory.old) }
    ensures err { OnErr result (directory.new ≡ directory.old) }
{
    match request {
        Request::CreateTable { table, period } => {
            made(directory.create_table(table, asker, *period))
        }
        Request::DropTable { table } => done(directory.drop_table(table)),
        Request::Constraint { table, on } => done(directory.set_constraint(table, *on)),
        Request::Period { table, period } => done(directory.set_period(table, *period)),
        Request::CreateUser {
            user,
            digest,
            auths,
        } => made(directory.create_user(user, *digest, auths.copy()?)),
        Request::DropUser { user } => done(directory.drop_user(user)),
        Request::Token { user, digest } => done(directory.set_token(user, *digest)),
        Request::Auths { user, auths } => done(directory.set_auths(user, auths.copy()?)),
        Request::GrantSystem { user, permission } => {
            done(directory.grant_system(user, *permission))
        }
        Request::RevokeSystem { user, permission } => {
            done(directory.revoke_system(user, *permission))
        }
        Request::GrantTable {
            table,
            user,
            permission,
        } => made(directory.grant_table(table, user, *permission)),
        Request::RevokeTable {
            table,
            user,
            permission,
        } => done(directory.revoke_table(table, user, *permission)),
        Request::GrantNamespace {
            namespace,
            user,
            permission,
        } => made(directory.grant_namespace(namespace, user, *permission)),
        Request::RevokeNamespace {
            namespace,
            user,
            permission,
        } => done(directory.revoke_namespace(namespace, user, *permission)),
        _ => Ok(()),
    }
}

impl<A: Allocator + Copy> Store<A> {
    // Makes an allowed change. When out of memory all stays as it was.
    fn make(&mut self, asker: &Name, request: &Request<A>) -> Result<(), AllocError>
        requires known { is_user self.old.directory asker.now ≡ true }
        requires allowed { refusal_of self.old.directory asker.now request.now ≡ None }
        ensures ok { OnOk result (self.new ≡ record {
          directory = directory_after asker.now request.now self.old.directory;
          rows = rows_after request.now self.old.rows;
          audit = self.old.audit;
        }) }
        ensures err { OnErr result (self.new ≡ self.old) }
    {
        match request {
            Request::Put { table, row } => self.put(table, row),
            Request::Delete { table, id, label } => {
                self.delete(table, id.as_str(), label.text());
                Ok(())
            }
            Request::CreateTable { table, period } => self.create_table(asker, table, *period),
            Request::DropTable { table } => self.drop_table(table),
            Request::Period { table, period } => self.set_period(table, *period),
            _ => change_directory(&mut self.directory, asker, request),
        }
    }

    // Makes a user's change or lists its refusal, and gives the reply.
    fn carry_out(
        &mut self,
        asker: &Name,
        request: &Request<A>,
        refusal: Option<Refusal>,
    ) -> Result<Reply<A>, AllocError>
        requires known { is_user self.old.directory asker.now ≡ true }
        requires change { is_change request.now ≡ true }
        requires judged { refusal_of self.old.directory asker.now request.now ≡ refusal }
        ensures reply { IfOk result (λ reply. reply ≡ (settle self.old (Heard asker.now request.now refusal)).reply) }
        ensures state { OnOk result (self.new ≡ (settle self.old (Heard asker.now request.now refusal)).state) }
        ensures unchanged { OnErr result (self.new ≡ self.old) }
    {
        match refusal {
            Some(refusal) => {
                self.note(asker, request, refusal.number());
                Ok(Reply::Refused(refusal))
            }
            None => {
                self.make(asker, request)?;
                self.note(asker, request, 0);
                Ok(Reply::Accepted)
            }
        }
    }

    /// Makes what a judged change comes to, and gives the reply: an allowed change is made; and made or refused, it is listed in
    /// the audit listing, unless it was not heard. When out of memory nothing is changed.
    pub fn settle(&mut self, judged: JudgedRef<A>) -> Result<Reply<A>, AllocError>
        requires { JudgesChange self.old.directory (judgement judged) }
        ensures reply { IfOk result (λ reply. reply ≡ (settle self.old (judgement judged.entry)).reply) }
        ensures state { OnOk result (self.new ≡ (settle self.old (judgement judged.entry)).state) }
        ensures unchanged { OnErr result (self.new ≡ self.old) }
    {
        match judged {
            JudgedRef::Unheard(refusal) => Ok(Reply::Refused(refusal)),
            JudgedRef::Heard {
                asker,
                request,
                refusal,
            } => self.carry_out(asker, request, refusal),
        }
    }

    /// Makes a user's change where it is allowed, and gives the reply, as `change` does where the token holds. So a change that was
    /// made before, of which no token is kept, can be made again. When out of memory nothing is changed.
    pub fn change_by(&mut self, asker: &Name, request: &Request<A>) -> Result<Reply<A>, AllocError>
        requires user { is_user self.old.directory asker.now ≡ true }
        requires change { is_change request.now ≡ true }
        ensures reply { IfOk result (λ reply. reply
            ≡ (settle self.old (judge_call self.old.directory (Some asker.now) (Call.Good request.now))).reply) }
        ensures state { OnOk result (self.new
            ≡ (settle self.old (judge_call self.old.directory (Some asker.now) (Call.Good request.now))).state) }
        ensures unchanged { OnErr result (self.new ≡ self.old) }
    {
        let refusal = refusal(&self.directory, asker, request);
        self.carry_out(asker, request, refusal)
    }

    /// Makes a change where it is allowed, and gives the reply. Whether it is made or refused, it is
    /// listed in the audit listing where its token holds. When out of memory nothing is changed.
    pub fn change(&mut self, asked: &Asked<A>) -> Result<Reply<A>, AllocError>
        requires { asks_for_change asked.now ≡ true }
        ensures reply { IfOk result (λ reply. reply ≡ (step self.old asked.now).reply) }
        ensures state { OnOk result (self.new ≡ (step self.old asked.now).state) }
        ensures unchanged { OnErr result (self.new ≡ self.old) }
    {
        let judged = judge(&self.directory, asked);
        self.settle(judged)
    }
}
