//! Sets of authorizations.
ghost use Rattle.std.specs.Prelude.{◌≡◌, ◌↔◌, ◌<◌, ◌≤◌, [], None, option_map, find, IsTrue, IfSome, IfOk, IfErr, length, map, not};
ghost use Rattle.std.specs.Prelude.{slice_index_or};
ghost use Rattle.std.specs.List.{list_all, position};
ghost use Rattle.st_text.specs.Texts.{is_among};
ghost use Rattle.st_auth.specs.Names.{is_auth_name as is_auth_name_of, first_bad, RefusesNames};
ghost use Rattle.st_auth.specs.inner.Order.{first_missing};
ghost use Rattle.st_auth.specs.inner.Order.{IsOrder};
ghost use Rattle.st_auth.specs.declared.auths.AuthsFault.TheVariants.{NoMemory};

use crate::order::{name_or_empty, places_in_order};
use st_label::{Names, Term};
use st_text::CompactText;
use std::alloc::{AllocError, AllocFailed, Allocator, Global};
use std::cmp::Ordering;
use std::marker::Model;
use thiserror::Error;

/// The greatest length of an authorization's name, in bytes.
pub const MAX_NAME: usize = 256;

// Of at most so many names a term's is looked for one by one, of more by a search in their order.
const FEW: usize = 16;

/// Why a list of texts is refused as a set of authorizations.
#[derive(Clone, Copy, PartialEq, Eq, Debug, Error)]
pub enum AuthsFault {
    /// The text at this index, the first such, is empty or longer than [`MAX_NAME`] bytes.
    #[error("the name at index {index} is empty or longer than {MAX_NAME} bytes")]
    BadName { index: usize },
    /// Out of memory.
    #[error("out of memory")]
    NoMemory,
}

impl From<AllocError> for AuthsFault {
    ghost from_gives = { λ _ e. e ≡ NoMemory };

    fn from(_e: AllocError) -> AuthsFault {
        AuthsFault::NoMemory
    }
}

impl<T: Drop> From<AllocFailed<T>> for AuthsFault {
    ghost from_gives = { λ _ e. e ≡ NoMemory };

    fn from(_e: AllocFailed<T>) -> AuthsFault {
        AuthsFault::NoMemory
    }
}

/// A set of authorizations: names of 1 to 256 bytes, as Accumulo gives them to users. It keeps the
/// order in which they were given and their repeats; neither matters when a label is tested.
#[derive(Drop)]
pub struct Auths<A: Allocator = Global> {
    alloc: A,
    names: Vec<CompactText<A>, A>,
    // The indices of the names, lesser names first.
    order: Vec<usize, A>,
}

impl<A: Allocator> Model for Auths<A> {
    ghost use Rattle.std.specs.Prelude.{ℕ, List};

    ghost Value = { List (List ℕ) };

    ghost view = { λ a. a.names.items };

    ghost use Rattle.std.specs.Prelude.{◌≡◌, None};
    ghost use Rattle.st_auth.specs.Names.{first_bad};
    ghost use Rattle.st_auth.specs.inner.Order.{IsOrder};

    ghost invariant = { λ a. IsOrder a.names.items a.order.items × (first_bad a.names.items ≡ None) };
}

impl<A: Allocator + Copy> Auths<A> {
    #[tactic(auto, using(crate::proofs::Places::position_map))]
    /// The set of these names. `BadName` comes before `NoMemory`.
    pub fn from_list(alloc: A, names: &[&str]) -> Result<Auths<A>, AuthsFault>
        ensures names { IfOk result (λ auths. auths ≡ map (λ name. name.now) names.now) }
        ensures good { IfOk result (λ auths. first_bad auths ≡ None) }
        ensures fault { IfErr result (λ fault. RefusesNames (map (λ name. name.now) names.now) fault) }
        ensures no_memory { IfErr result (λ fault. fault ≡ NoMemory → first_bad (map (λ name. name.now) names.now) ≡ None) }
    {
        if let Some(index) = bad_place(names) {
            return Err(AuthsFault::BadName { index });
        }
        let names = copies(alloc, names)?;
        let order = places_in_order(alloc, &names)?;
        Ok(Auths {
            alloc,
            names,
            order,
        })
    }

    /// An equal set. `AllocError` when out of memory.
    pub fn copy(&self) -> Result<Auths<A>, AllocError>
        ensures { IfOk result (λ other. other ≡ self.now) }
    {
        self.copy_in(self.alloc)
    }

    /// The empty set. It allocates nothing.
    pub fn none(alloc: A) -> Auths<A>
        ensures { result ≡ [] }
    {
        Auths {
            alloc,
            names: Vec::new(alloc),
            order: Vec::new(alloc),
        }
    }
}

impl<A: Allocator> Auths<A> {
    /// Whether this is one of the names.
    pub fn has(&self, name: &str) -> bool
        ensures { result ≡ is_among self.now name.now }
    {
        self.order
            .binary_search_by(|place| name_or_empty(&self.names, *place).cmp(name))
            .is_ok()
    }

    #[tactic(auto, using(crate::proofs::Places::position_map))]
    /// The index of the first of the names that this set lacks.
    pub fn first_missing(&self, names: &[&str]) -> Option<usize>
        ensures { result ≡ first_missing self.now (map (λ name. name.now) names.now) }
    {
        first_lacked(self, names)
    }

    /// Whether this set has every name of the other. It walks once over both, which is cheaper than looking up each of many names.
    pub fn has_all<B: Allocator>(&self, other: &Auths<B>) -> bool
        ensures { result ≡ list_all (is_among self.now) other.now }
    {
        let mut ours = self.order.as_slice();
        let mut theirs = other.order.as_slice();
        'theirs: while let Some((their, rest)) = theirs.split_first() {
            let Some((our, greater)) = ours.split_first() else {
                return false;
            };
            match name_or_empty(&self.names, *our).cmp(name_or_empty(&other.names, *their)) {
                Ordering::Less => ours = greater,
                Ordering::Equal => theirs = rest,
                Ordering::Greater => return false,
            }
        }
        true
    }

    /// The first of the other's names, in the order given, that this set lacks.
    pub fn missing_from<'b, B: Allocator>(&self, names: &'b Auths<B>) -> Option<&'b str>
        ensures name { option_map (λ name. name.now) result ≡ find (λ name. not (is_among self.now name)) names.now }
        ensures sized { IfSome result (λ name. length name.now ≤ MAX_NAME) }
    {
        // With few names and a large set, looking up each takes fewer comparisons than the walk.
        if names.len() >= self.len() / 8 && self.has_all(names) {
            return None;
        }
        match first_outside(self, names.names.as_slice()) {
            Some(name) => Some(name.as_str()),
            None => None,
        }
    }

    /// An equal set in another allocator. `AllocError` when out of memory.
    pub fn copy_in<B: Allocator + Copy>(&self, alloc: B) -> Result<Auths<B>, AllocError>
        ensures { IfOk result (λ other. other ≡ self.now) }
    {
        let mut names = Vec::with_capacity(alloc, self.names.len())?;
        for name in &self.names {
            names.push(CompactText::new(alloc, name.as_str())?)?;
        }
        Ok(Auths {
            alloc,
            names,
            order: Vec::from_slice(alloc, &self.order)?,
        })
    }

    /// Whether the same names were given in the same order.
    pub fn is_same<B: Allocator>(&self, other: &Auths<B>) -> bool
        ensures { IsTrue result ↔ (self.now ≡ other.now) }
    {
        if self.names.len() != other.names.len() {
            return false;
        }
        for place in 0..self.names.len() {
            if self.names[place].as_str() != other.names[place].as_str() {
                return false;
            }
        }
        true
    }

    /// The number of names given, repeats included.
    pub fn len(&self) -> usize
        ensures { result ≡ length self.now }
    {
        self.names.len()
    }

    /// The indices of all names, those of lesser names first, by bytes.
    pub fn order(&self) -> &[usize]
        ensures { IsOrder self.now result.now }
    {
        &self.order
    }

    /// The name at an index, in the order given.
    pub fn get(&self, index: usize) -> &str
        requires { index < length self.now }
        ensures { result.now ≡ slice_index_or self.now index result.now }
    {
        self.names[index].as_str()
    }
}

impl<A: Allocator> Names for Auths<A> {
    ghost use Rattle.st_text.specs.Texts.{is_among};

    ghost among = { λ auths name. is_among auths name };

    fn has_term(&self, term: &Term<'_>) -> bool {
        if self.names.len() <= FEW {
            return is_one_of(term, &self.names);
        }
        self.order
            .binary_search_by(|place| term.compare(name_or_empty(&self.names, *place)))
            .is_ok()
    }
}

// Whether the term's name is one of these. It looks at each in turn.
fn is_one_of<A: Allocator>(term: &Term<'_>, names: &[CompactText<A>]) -> bool
    ensures { result ≡ is_among names.now term.now }
{
    names.iter().any(|name| term.is(name.as_str()))
}

// The index of the first of the names that is not in the set.
fn first_lacked<A: Allocator>(set: &Auths<A>, names: &[&str]) -> Option<usize>
    ensures { result ≡ position (λ name. not (is_among set.now name.now)) names.now }
{
    names.iter().position(|name| !set.has(*name))
}

// The first of the names that is not in the set.
fn first_outside<'b, A: Allocator, B: Allocator>(
    set: &Auths<A>,
    names: &'b [CompactText<B>],
) -> Option<&'b CompactText<B>>
    ensures { option_map (λ name. name.now) result ≡ find (λ name. not (is_among set.now name)) names.now }
{
    names.iter().find(|name| !set.has(name.as_str()))
}

// Whether a text is a name: neither empty nor too long.
fn is_auth_name(name: &str) -> bool
    ensures { result ≡ is_auth_name_of name.now }
{
    1 <= name.len() && name.len() <= MAX_NAME
}

// The index of the first text that is not a name.
fn bad_place(names: &[&str]) -> Option<usize>
    ensures { result ≡ position (λ name. not (is_auth_name_of name.now)) names.now }
{
    names.iter().position(|name| !is_auth_name(*name))
}

// Copies of the names.
fn copies<A: Allocator + Copy>(
    alloc: A,
    names: &[&str],
) -> Result<Vec<CompactText<A>, A>, AllocError>
    ensures { IfOk result (λ list. list.items ≡ map (λ name. name.now) names.now) }
{
    let mut list = Vec::with_capacity(alloc, names.len())?;
    for name in names {
        list.push(CompactText::new(alloc, *name)?)?;
    }
    Ok(list)
}
