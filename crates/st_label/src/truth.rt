//! Whether a label is true, by one pass over its text that allocates nothing.
ghost use Rattle.std.specs.Prelude.{◌≡◌, ◌<◌, ◌≤◌, ◌≢◌, ◌^◌, IfOk, IfErr, Err, length, reverse, [], slice_index_or};
ghost use Rattle.st_label.specs.inner.Machine.{class_of as class_at};
ghost use Rattle.st_label.specs.inner.Views.{class_view};
ghost use Rattle.st_label.specs.Refusals.{max_len};
ghost use Rattle.st_label.specs.Reading.{is_true, IsLabel};
ghost use Rattle.st_label.specs.Faults.{RefusesLabel};
ghost use Rattle.st_label.specs.inner.Truth.{joins, sign_truth, level_truth, pass_done, pass_start, pass_step, pass_truth, stage_of};
ghost use Rattle.st_label.specs.inner.Truth.{IsPlaced, PassesTo};

use crate::class::{Class, class_of};
use crate::label::LabelFault;
use crate::reader::MAX_DEPTH;
use crate::term::{Names, Term};
use crate::tree::Operator;
use arrayvec::ArrayVec;

// A level so far: no unit, or units each followed by the operator, and their truth.
#[derive(Clone, Copy)]
enum Level {
    Free,
    Joined(Operator, bool),
}

impl Default for Level {
    fn default() -> Level {
        Level::Free
    }
}

// The unit so far, by the index of its first byte, or its truth.
#[derive(Clone, Copy)]
enum Part {
    Start,
    Word(usize),
    Quoted(usize),
    Escape(usize),
    Done(bool),
}

// Why a byte is refused.
#[derive(Drop)]
enum Stop {
    NotViable,
    TooDeep,
}

// Reads a label byte by byte.
#[derive(Drop)]
struct Pass {
    outer: ArrayVec<Level, MAX_DEPTH>,
    level: Level,
    unit: Part,
}

impl Pass {
    fn new() -> Pass
        ensures outer { result.outer.items ≡ [] }
        ensures level { result.level ≡ Level.Free }
        ensures unit { result.unit ≡ Part.Start }
    {
        Pass {
            outer: ArrayVec::new(),
            level: Level::Free,
            unit: Part::Start,
        }
    }

    // Reads the byte at this index.
    fn step<N: Names>(&mut self, names: &N, text: &[u8], at: usize) -> Result<(), Stop>
        requires inside { at < length text.now }
        requires placed { IsPlaced self.old.unit at }
        ensures { PassesTo (λ room. pass_step room (N.among names.now) text.now at (reverse self.old.outer.items)
            self.old.level self.old.unit (class_at (slice_index_or text.now at 0))) (stage_of self.new) result }
    {
        let class = class_of(text[at] as char);
        match self.unit {
            Part::Start => self.start(at, class),
            Part::Word(from) => match class {
                Class::Plain => Ok(()),
                _ => {
                    let truth = names.has_term(&Term::word(&text[from..at]));
                    self.behind(truth, class)
                }
            },
            Part::Quoted(from) => match class {
                Class::Quote => {
                    if from == at {
                        return Err(Stop::NotViable);
                    }
                    let truth = names.has_term(&Term::quoted(&text[from..at]));
                    self.unit = Part::Done(truth);
                    Ok(())
                }
                Class::Backslash => {
                    self.unit = Part::Escape(from);
                    Ok(())
                }
                _ => Ok(()),
            },
            Part::Escape(from) => match class {
                Class::Quote | Class::Backslash => {
                    self.unit = Part::Quoted(from);
                    Ok(())
                }
                _ => Err(Stop::NotViable),
            },
            Part::Done(truth) => self.behind(truth, class),
        }
    }

    // A unit begins.
    fn start(&mut self, at: usize, class: Class) -> Result<(), Stop>
        requires fits { at < 2 ^ 63 }
        requires between { self.old.unit ≡ Part.Start }
        ensures { PassesTo (λ room. pass_start room (reverse self.old.outer.items) self.old.level at (class_view class))
            (stage_of self.new) result }
    {
        match class {
            Class::Plain => {
                self.unit = Part::Word(at);
                Ok(())
            }
            Class::Quote => {
                self.unit = Part::Quoted(at + 1);
                Ok(())
            }
            Class::Open => {
                if self.outer.len() >= MAX_DEPTH {
                    return Err(Stop::TooDeep);
                }
                self.outer.push(self.level);
                self.level = Level::Free;
                Ok(())
            }
            _ => Err(Stop::NotViable),
        }
    }

    // The step after a whole unit.
    fn behind(&mut self, truth: bool, class: Class) -> Result<(), Stop>
        ensures { PassesTo (λ room. pass_done (reverse self.old.outer.items) self.old.level truth (class_view class))
            (stage_of self.new) result }
    {
        match class {
            Class::Sign(operator) => match joined(operator, self.level, truth) {
                Some(level) => {
                    self.level = level;
                    self.unit = Part::Start;
                    Ok(())
                }
                None => Err(Stop::NotViable),
            },
            Class::Close => match self.outer.pop() {
                Some(around) => {
                    self.unit = Part::Done(closed(self.level, truth));
                    self.level = around;
                    Ok(())
                }
                None => Err(Stop::NotViable),
            },
            _ => Err(Stop::NotViable),
        }
    }

    // The truth of the whole text.
    fn finish<N: Names>(self, names: &N, text: &[u8]) -> Option<bool>
        requires { IsPlaced self.unit (length text.now) }
        ensures { result ≡ pass_truth (N.among names.now) text.now (reverse self.outer.items) self.level self.unit }
    {
        let Pass { outer, level, unit } = self;
        if !outer.is_empty() {
            return None;
        }
        match unit {
            Part::Start => match level {
                Level::Free => Some(true),
                Level::Joined(_, _) => None,
            },
            Part::Word(from) => Some(closed(level, names.has_term(&Term::word(&text[from..])))),
            Part::Quoted(_) | Part::Escape(_) => None,
            Part::Done(truth) => Some(closed(level, truth)),
        }
    }
}

// Whether a text is true for the names, or why it is not a label. It allocates nothing.
pub(crate) fn judge<N: Names>(text: &[u8], names: &N) -> Result<bool, LabelFault>
    requires { length text.now ≤ max_len }
    ensures label { IfOk result (λ _. IsLabel text.now) }
    ensures truth { IfOk result (λ truth. truth ≡ is_true (N.among names.now) text.now) }
    ensures fault { IfErr result (λ fault. RefusesLabel text.now fault) }
    ensures memory { result ≢ Err LabelFault.NoMemory }
{
    let mut pass = Pass::new();
    for at in 0..text.len() {
        match pass.step(names, text, at) {
            Ok(()) => {}
            Err(Stop::NotViable) => return Err(LabelFault::BadLabel { at }),
            Err(Stop::TooDeep) => return Err(LabelFault::TooDeep { at }),
        }
    }
    match pass.finish(names, text) {
        Some(truth) => Ok(truth),
        None => Err(LabelFault::BadLabel { at: text.len() }),
    }
}

// The level so far with one more unit, followed by the operator.
fn joined(operator: Operator, level: Level, truth: bool) -> Option<Level>
    ensures { result ≡ sign_truth operator level truth }
{
    match level {
        Level::Free => Some(Level::Joined(operator, truth)),
        Level::Joined(first, so_far) => {
            if first != operator {
                return None;
            }
            Some(Level::Joined(operator, join(operator, so_far, truth)))
        }
    }
}

// The truth of two operands together.
fn join(operator: Operator, one: bool, other: bool) -> bool
    ensures { result ≡ joins operator one other }
{
    match operator {
        Operator::All => one && other,
        Operator::Any => one || other,
    }
}

// The level with its last unit.
fn closed(level: Level, truth: bool) -> bool
    ensures { result ≡ level_truth level truth }
{
    match level {
        Level::Free => truth,
        Level::Joined(operator, so_far) => join(operator, so_far, truth),
    }
}
