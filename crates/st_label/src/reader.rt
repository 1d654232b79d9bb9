//! Reads the tree of a label.
ghost use Rattle.std.specs.Prelude.{◌≡◌, ◌++◌, ◌∷◌, [], Option, IfOk, option_map, Ok, Err, Some, map, string_bytes, encode_utf8};
ghost use Rattle.st_label.specs.inner.Machine.{Mode, Open, Word, Quoted, Done, Joined as JoinedOf, init, state, step_mode, step_start};
ghost use Rattle.st_label.specs.inner.Machine.{step_done, popped, with_sign, closed as closed_by, whole as whole_by, tree_of};
ghost use Rattle.st_label.specs.inner.Machine.{class_of as class_at};
ghost use Rattle.st_label.specs.Refusals.{max_depth};
ghost use Rattle.st_label.specs.inner.Views.{reader_view, tree_view, level_view, outer_view, unit_view, op_view, class_view};
ghost use Rattle.st_label.specs.inner.Gives.{Gives, named};
ghost use Rattle.st_label.specs.declared.reader.ReadFault.TheVariants.{NoMemory};

use crate::class::{Class, class_of};
use crate::tree::{Operator, Tree};
use std::alloc::{AllocError, AllocFailed, Allocator};

/// The most parentheses that may be open at once.
pub const MAX_DEPTH: usize = 16;

/// Why a character is refused.
#[derive(Drop)]
pub enum ReadFault {
    /// No label continues with it.
    Refused,
    /// Out of memory.
    NoMemory,
}

impl From<AllocError> for ReadFault {
    ghost from_gives = { λ _ e. e ≡ NoMemory };

    fn from(_e: AllocError) -> ReadFault {
        ReadFault::NoMemory
    }
}

impl<T: Drop> From<AllocFailed<T>> for ReadFault {
    ghost from_gives = { λ _ e. e ≡ NoMemory };

    fn from(_e: AllocFailed<T>) -> ReadFault {
        ReadFault::NoMemory
    }
}

/// A level so far: no unit, or units each followed by the operator.
#[derive(Drop)]
pub enum Level<A: Allocator> {
    Free,
    Joined(Operator, Vec<Tree<A>, A>),
}

/// The unit so far.
#[derive(Drop)]
pub enum Unit<A: Allocator> {
    Start,
    Word(String<A>),
    Quoted(String<A>),
    Escape(String<A>),
    Done(Tree<A>),
}

/// Reads a label character by character.
#[derive(Drop)]
pub struct Reader<A: Allocator> {
    alloc: A,
    outer: Vec<Level<A>, A>,
    level: Level<A>,
    unit: Unit<A>,
}

// A reader with these parts.
fn reader_at<A: Allocator>(
    alloc: A,
    outer: Vec<Level<A>, A>,
    level: Level<A>,
    unit: Unit<A>,
) -> Result<Reader<A>, ReadFault>
    ensures { result ≡ Ok (record { alloc = alloc; outer = outer; level = level; unit = unit }) }
{
    Ok(Reader {
        alloc,
        outer,
        level,
        unit,
    })
}

// A reader with these parts, or the fault of its unit.
fn with_unit<A: Allocator>(
    alloc: A,
    outer: Vec<Level<A>, A>,
    level: Level<A>,
    unit: Result<Unit<A>, ReadFault>,
) -> Result<Reader<A>, ReadFault>
    ensures { (next : Option Mode) → Gives unit_view next unit
        → Gives reader_view (option_map (state (outer_view outer.items) (level_view level)) next) result }
{
    match unit {
        Ok(unit) => reader_at(alloc, outer, level, unit),
        Err(fault) => {
            drop(outer);
            drop(level);
            Err(fault)
        }
    }
}

// Drops the levels: no label continues like this.
fn refused<A: Allocator>(outer: Vec<Level<A>, A>, level: Level<A>) -> Result<Reader<A>, ReadFault>
    ensures { result ≡ Err ReadFault.Refused }
{
    drop(outer);
    drop(level);
    Err(ReadFault::Refused)
}

impl<A: Allocator + Copy> Reader<A> {
    /// A reader at the start of a text.
    pub fn new(alloc: A) -> Reader<A>
        ensures { reader_view result ≡ init }
    {
        Reader {
            alloc,
            outer: Vec::new(alloc),
            level: Level::Free,
            unit: Unit::Start,
        }
    }

    /// The reader after one more character.
    pub fn step(self, c: char) -> Result<Reader<A>, ReadFault>
        ensures { Gives reader_view (step_mode max_depth (outer_view self.outer.items) (level_view self.level)
            (encode_utf8 c) (class_at c) (unit_view self.unit)) result }
    {
        let Reader {
            alloc,
            outer,
            level,
            unit,
        } = self;
        let class = class_of(c);
        match unit {
            Unit::Start => start(alloc, outer, level, c, class),
            Unit::Word(name) => match class {
                Class::Plain => with_unit(alloc, outer, level, word(name, c)),
                _ => behind(alloc, outer, level, Tree::Term(name), class),
            },
            Unit::Quoted(name) => match class {
                Class::Quote => with_unit(alloc, outer, level, unquoted(name)),
                Class::Backslash => reader_at(alloc, outer, level, Unit::Escape(name)),
                _ => with_unit(alloc, outer, level, quoted(name, c)),
            },
            Unit::Escape(name) => match class {
                Class::Quote | Class::Backslash => {
                    with_unit(alloc, outer, level, quoted(name, c))
                }
                _ => {
                    drop(name);
                    refused(outer, level)
                }
            },
            Unit::Done(tree) => behind(alloc, outer, level, tree, class),
        }
    }

    /// The tree of the whole text.
    pub fn finish(self) -> Result<Tree<A>, ReadFault>
        ensures { Gives tree_view (tree_of (reader_view self)) result }
    {
        let Reader {
            alloc: _,
            outer,
            level,
            unit,
        } = self;
        let is_closed = outer.is_empty();
        drop(outer);
        if !is_closed {
            drop(unit);
            drop(level);
            return Err(ReadFault::Refused);
        }
        last(level, unit)
    }
}

// The tree of a level with its last unit.
fn last<A: Allocator>(level: Level<A>, unit: Unit<A>) -> Result<Tree<A>, ReadFault>
    ensures { Gives tree_view (whole_by [] (level_view level) (unit_view unit)) result }
{
    match unit {
        Unit::Start => match level {
            Level::Free => Ok(Tree::Empty),
            Level::Joined(_, _) => Err(ReadFault::Refused),
        },
        Unit::Word(name) => Ok(closed(level, Tree::Term(name))?),
        Unit::Quoted(_) | Unit::Escape(_) => Err(ReadFault::Refused),
        Unit::Done(tree) => Ok(closed(level, tree)?),
    }
}

// A word with one more character.
fn word<A: Allocator>(mut name: String<A>, c: char) -> Result<Unit<A>, ReadFault>
    ensures { Gives unit_view (Some (Word (string_bytes name ++ encode_utf8 c))) result }
{
    name.push(c)?;
    Ok(Unit::Word(name))
}

// A name between quotes with one more character.
fn quoted<A: Allocator>(mut name: String<A>, c: char) -> Result<Unit<A>, ReadFault>
    ensures { Gives unit_view (Some (Quoted (string_bytes name ++ encode_utf8 c))) result }
{
    name.push(c)?;
    Ok(Unit::Quoted(name))
}

// A quote closes a name of one byte or more.
fn unquoted<A: Allocator>(name: String<A>) -> Result<Unit<A>, ReadFault>
    ensures { Gives unit_view (named (string_bytes name)) result }
{
    if name.is_empty() {
        return Err(ReadFault::Refused);
    }
    Ok(Unit::Done(Tree::Term(name)))
}

// A level with its last unit is a unit.
fn done<A: Allocator>(level: Level<A>, tree: Tree<A>) -> Result<Unit<A>, ReadFault>
    ensures { Gives unit_view (Some (Done (closed_by (level_view level) (tree_view tree)))) result }
{
    Ok(Unit::Done(closed(level, tree)?))
}

// A unit begins.
fn start<A: Allocator + Copy>(
    alloc: A,
    outer: Vec<Level<A>, A>,
    level: Level<A>,
    c: char,
    class: Class,
) -> Result<Reader<A>, ReadFault>
    ensures { Gives reader_view
        (step_start max_depth (outer_view outer.items) (level_view level) (encode_utf8 c) (class_view class)) result }
{
    match class {
        Class::Plain => with_unit(alloc, outer, level, word(String::new(alloc), c)),
        Class::Quote => reader_at(alloc, outer, level, Unit::Quoted(String::new(alloc))),
        Class::Open => opened(alloc, outer, level),
        _ => refused(outer, level),
    }
}

// A parenthesis opens.
fn opened<A: Allocator>(
    alloc: A,
    mut outer: Vec<Level<A>, A>,
    level: Level<A>,
) -> Result<Reader<A>, ReadFault>
    ensures { Gives reader_view (step_start max_depth (outer_view outer.items) (level_view level) [] Open) result }
{
    if outer.len() >= MAX_DEPTH {
        return refused(outer, level);
    }
    outer.push(level)?;
    reader_at(alloc, outer, Level::Free, Unit::Start)
}

// The step after a whole unit.
fn behind<A: Allocator + Copy>(
    alloc: A,
    outer: Vec<Level<A>, A>,
    level: Level<A>,
    tree: Tree<A>,
    class: Class,
) -> Result<Reader<A>, ReadFault>
    ensures { Gives reader_view (step_done (outer_view outer.items) (level_view level) (tree_view tree) (class_view class)) result }
{
    match class {
        Class::Sign(operator) => {
            let level = joined(alloc, operator, level, tree)?;
            reader_at(alloc, outer, level, Unit::Start)
        }
        Class::Close => left(alloc, outer, level, tree),
        _ => {
            drop(tree);
            refused(outer, level)
        }
    }
}

// A parenthesis closes.
fn left<A: Allocator>(
    alloc: A,
    mut outer: Vec<Level<A>, A>,
    level: Level<A>,
    tree: Tree<A>,
) -> Result<Reader<A>, ReadFault>
    ensures { Gives reader_view (popped (outer_view outer.items) (closed_by (level_view level) (tree_view tree))) result }
{
    match outer.pop() {
        None => {
            drop(tree);
            refused(outer, level)
        }
        Some(around) => with_unit(alloc, outer, around, done(level, tree)),
    }
}

// The level so far with one more unit, followed by the operator.
fn joined<A: Allocator + Copy>(
    alloc: A,
    operator: Operator,
    level: Level<A>,
    tree: Tree<A>,
) -> Result<Level<A>, ReadFault>
    ensures { Gives level_view (with_sign (op_view operator) (level_view level) (tree_view tree)) result }
{
    match level {
        Level::Free => joined_to(operator, Vec::new(alloc), tree),
        Level::Joined(first, trees) => {
            if first != operator {
                drop(tree);
                drop(trees);
                return Err(ReadFault::Refused);
            }
            joined_to(operator, trees, tree)
        }
    }
}

// The units of a level with one more.
fn joined_to<A: Allocator>(
    operator: Operator,
    mut trees: Vec<Tree<A>, A>,
    tree: Tree<A>,
) -> Result<Level<A>, ReadFault>
    ensures { Gives level_view (Some (JoinedOf (op_view operator) (map tree_view trees.items ++ tree_view tree ∷ []))) result }
{
    trees.push(tree)?;
    Ok(Level::Joined(operator, trees))
}

// The level with its last unit.
fn closed<A: Allocator>(level: Level<A>, tree: Tree<A>) -> Result<Tree<A>, AllocError>
    ensures { IfOk result (λ whole. closed_by (level_view level) (tree_view tree) ≡ tree_view whole) }
{
    match level {
        Level::Free => Ok(tree),
        Level::Joined(operator, mut trees) => {
            trees.push(tree)?;
            match operator {
                Operator::All => Ok(Tree::And(trees)),
                Operator::Any => Ok(Tree::Or(trees)),
            }
        }
    }
}
