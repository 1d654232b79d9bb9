//! The store: the state, and the requests on it.
ghost use Rattle.std.specs.Prelude.{◌≡◌, None, codes, ◌++◌, ◌∷◌, [], map, IfOk, IfErr, OnOk, OnErr};
ghost use Rattle.st_auth.specs.Names.{RefusesNames, first_bad};
ghost use Rattle.st_auth.specs.declared.auths.AuthsFault.TheVariants.{NoMemory};
ghost use Rattle.circular_buffer.specs.Buffer.{keep_last};
ghost use Rattle.st_key.specs.declared.period.Period.TheVariants.{Week};
ghost use Rattle.st_policy.specs.Entries.{entry_of};
ghost use Rattle.st_core.specs.State.{first_state};
ghost use Rattle.st_core.specs.Step.{step};

mod answering;
mod audit;
pub(crate) mod changing;
mod reading;
mod table_changes;
mod tables;

use crate::asked::Asked;
use audit::{AUDIT_LEN, copy_listing};
use circular_buffer::HeapCircularBuffer;
use st_auth::{Auths, AuthsFault};
use st_dir::{Directory, Name, TableName};
use st_key::Period;
use st_policy::{Entry, Reply, Request};
use st_table::Seed;
use std::alloc::{AllocError, Allocator, Global};
use std::marker::Model;
use tables::Tables;

/// The directory, the rows of each table, and the audit listing.
pub struct Store<A: Allocator + Copy = Global> {
    pub(crate) alloc: A,
    pub(crate) directory: Directory<A>,
    pub(crate) tables: Tables<A>,
    pub(crate) audit: HeapCircularBuffer<Entry, A>,
}

impl<A: Allocator + Copy> Model for Store<A> {
    ghost use Rattle.std.specs.Prelude.{◌≡◌};
    ghost use Rattle.st_core.specs.State.{State};
    ghost use Rattle.st_core.specs.inner.Tables.{headings_of};

    ghost Value = { State A };

    ghost view = { λ s. record { directory = s.directory; rows = s.tables.rows; audit = s.audit.items } };

    ghost invariant = { λ s. (s.audit.capacity ≡ 1024) × (s.tables.headings ≡ headings_of s.directory.tables) };
}

// The table points, without rows, with weeks for bins.
fn first_tables<A: Allocator + Copy>(alloc: A, seed: Seed) -> Result<Tables<A>, AllocError>
    ensures { IfOk result (λ tables. tables ≡ record { headings = record { table = codes "points"; period = Week } ∷ []; rows = [] }) }
{
    let mut tables = Tables::new(alloc, seed);
    tables.add(alloc, &points(), Period::Week)?;
    Ok(tables)
}

// The table points and the listing of no changes.
fn first_parts<A: Allocator + Copy>(
    alloc: A,
    seed: Seed,
) -> Result<(Tables<A>, HeapCircularBuffer<Entry, A>), AllocError>
    ensures tables { IfOk result (λ parts. parts.0
        ≡ record { headings = record { table = codes "points"; period = Week } ∷ []; rows = [] }) }
    ensures audit { IfOk result (λ parts. (parts.1.items ≡ []) × (parts.1.capacity ≡ 1024)) }
{
    let tables = first_tables(alloc, seed)?;
    match HeapCircularBuffer::with_capacity(alloc, AUDIT_LEN) {
        Ok(audit) => Ok((tables, audit)),
        Err(fault) => {
            drop(tables);
            Err(fault)
        }
    }
}

// Equal tables, and an equal listing.
fn copy_parts<A: Allocator + Copy>(
    alloc: A,
    tables: &Tables<A>,
    audit: &HeapCircularBuffer<Entry, A>,
) -> Result<(Tables<A>, HeapCircularBuffer<Entry, A>), AllocError>
    ensures { IfOk result (λ parts. (parts.0 ≡ tables.now) × (parts.1 ≡ audit.now)) }
{
    let tables = tables.copy(alloc)?;
    match copy_listing(alloc, audit) {
        Ok(audit) => Ok((tables, audit)),
        Err(fault) => {
            drop(tables);
            Err(fault)
        }
    }
}

// The name of the table that a server begins with.
fn points() -> TableName
    ensures { result ≡ codes "points" }
{
    match TableName::new("points") {
        Ok(name) => name,
        Err(_) => unreachable!(),
    }
}

impl<A: Allocator + Copy> Store<A> {
    /// The store that a server begins with: the user root, who has this digest of its secret, these
    /// authorizations and each permission on the system, and the table points, made by root. No answer depends on the seed.
    /// `BadName` where a name is no authorization; it comes before `NoMemory`.
    pub fn open(
        alloc: A,
        seed: Seed,
        digest: [u8; 32],
        auths: &[&str],
    ) -> Result<Store<A>, AuthsFault>
        ensures ok { IfOk result (λ store. store ≡ first_state digest (map (λ name. name.now) auths.now)) }
        ensures good { OnOk result (first_bad (map (λ name. name.now) auths.now) ≡ None) }
        ensures fault { IfErr result (λ fault. RefusesNames (map (λ name. name.now) auths.now) fault) }
        ensures no_memory { IfErr result (λ fault. fault ≡ NoMemory → first_bad (map (λ name. name.now) auths.now) ≡ None) }
    {
        let auths = Auths::from_list(alloc, auths)?;
        let directory = Directory::new(alloc, digest, auths)?;
        match first_parts(alloc, seed) {
            Ok((tables, audit)) => Ok(Store {
                alloc,
                directory,
                tables,
                audit,
            }),
            Err(fault) => {
                drop(directory);
                Err(AuthsFault::from(fault))
            }
        }
    }

    /// An equal store. An error when out of memory.
    pub fn copy(&self) -> Result<Store<A>, AllocError>
        ensures { IfOk result (λ store. store ≡ self.now) }
    {
        let alloc = self.alloc;
        let directory = self.directory.copy()?;
        match copy_parts(alloc, &self.tables, &self.audit) {
            Ok((tables, audit)) => Ok(Store {
                alloc,
                directory,
                tables,
                audit,
            }),
            Err(fault) => {
                drop(directory);
                Err(fault)
            }
        }
    }

    // The allocator of its parts.
    pub(crate) fn allocator(&self) -> A {
        self.alloc
    }

    /// The users, tables and grants of its state.
    pub fn directory(&self) -> &Directory<A>
        ensures { result.now ≡ self.now.directory }
    {
        &self.directory
    }

    // Lists a change that was asked for.
    pub(crate) fn note(&mut self, asker: &Name, request: &Request<A>, number: u8)
        ensures { self.new ≡ record self.old { audit = keep_last 1024 (self.old.audit ++ entry_of asker.now request.now number ∷ []) } }
    {
        self.audit.push_back(Entry::of(asker, request, number));
    }

    /// The reply to what is asked, which may be a change. When out of memory nothing is changed.
    pub fn step(&mut self, asked: &Asked<A>) -> Result<Reply<A>, AllocError>
        ensures reply { IfOk result (λ reply. reply ≡ (step self.old asked.now).reply) }
        ensures state { OnOk result (self.new ≡ (step self.old asked.now).state) }
        ensures unchanged { OnErr result (self.new ≡ self.old) }
    {
        if asked.is_change() {
            self.change(asked)
        } else {
            self.answer(asked)
        }
    }
}

// Written out, and not derived: a derived drop is proved anew in each crate that owns a store.
impl<A: Allocator + Copy> Drop for Store<A> {
    fn drop(self) {
        let Self {
            alloc: _alloc,
            directory: _directory,
            tables: _tables,
            audit: _audit,
        } = self;
    }
}
