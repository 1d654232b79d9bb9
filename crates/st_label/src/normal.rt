//! The normal form of a tree.
ghost use Rattle.std.specs.Prelude.{◌≡◌, [], IfOk, map, string_bytes};
ghost use Rattle.std.specs.Cmp.Lexicographic.{slice_cmp};
ghost use Rattle.std.specs.List.{position};
ghost use Rattle.std.specs.Ordering.{nat_cmp, is_le};
ghost use Rattle.st_label.specs.Tree.{operands};
ghost use Rattle.st_label.specs.Normal.{operand_text, parts, insert_operand, insert_all, whole_of, normal as normal_of, normal_operands};
ghost use Rattle.st_label.specs.inner.Gathered.{gathered};
ghost use Rattle.st_label.specs.inner.Views.{tree_view, op_view};

use crate::print::push_operand;
use crate::tree::{Operator, Tree};
use std::alloc::{AllocError, Allocator};

// Operands of a level with their printed forms, sorted by these, without repeats.
#[derive(Drop)]
struct Gathered<A: Allocator> {
    alloc: A,
    texts: Vec<String<A>, A>,
    trees: Vec<Tree<A>, A>,
    ghost printed: { map string_bytes texts.items ≡ map (λ tree. operand_text (tree_view tree)) trees.items },
}

impl<A: Allocator + Copy> Gathered<A> {
    fn new(alloc: A) -> Gathered<A>
        ensures { result.trees.items ≡ [] }
    {
        Gathered {
            alloc,
            texts: Vec::new(alloc),
            trees: Vec::new(alloc),
        }
    }

    // One more operand in the order of printed forms, unless one of its form is there.
    fn with(self, tree: Tree<A>) -> Result<Gathered<A>, AllocError>
        ensures { IfOk result (λ more.
            map tree_view more.trees.items ≡ insert_operand (tree_view tree) (map tree_view self.trees.items)) }
    {
        let Gathered {
            alloc,
            mut texts,
            mut trees,
        } = self;
        let text = operand(alloc, &tree)?;
        match place_of(&texts, text.as_str()) {
            None => {
                texts.push(text)?;
                trees.push(tree)?;
                Ok(Gathered {
                    alloc,
                    texts,
                    trees,
                })
            }
            Some(place) => {
                if texts[place].as_str() == text.as_str() {
                    return Ok(Gathered {
                        alloc,
                        texts,
                        trees,
                    });
                }
                texts.insert(place, text)?;
                trees.insert(place, tree)?;
                Ok(Gathered {
                    alloc,
                    texts,
                    trees,
                })
            }
        }
    }

    // The operands of another level.
    fn with_all(self, mut others: Vec<Tree<A>, A>) -> Result<Gathered<A>, AllocError>
        ensures { IfOk result (λ more.
            map tree_view more.trees.items ≡ insert_all (map tree_view others.items) (map tree_view self.trees.items)) }
    {
        let mut all = self;
        while let Some(tree) = others.pop() {
            all = all.with(tree)?;
        }
        Ok(all)
    }

    // The operands of an operand with the same operator, or else the operand.
    fn with_parts(self, operator: Operator, tree: Tree<A>) -> Result<Gathered<A>, AllocError>
        ensures { IfOk result (λ more. map tree_view more.trees.items
            ≡ insert_all (parts (op_view operator) (tree_view tree)) (map tree_view self.trees.items)) }
    {
        match tree {
            Tree::And(trees) => match operator {
                Operator::All => self.with_all(trees),
                Operator::Any => self.with(Tree::And(trees)),
            },
            Tree::Or(trees) => match operator {
                Operator::All => self.with(Tree::Or(trees)),
                Operator::Any => self.with_all(trees),
            },
            Tree::Term(name) => self.with(Tree::Term(name)),
            Tree::Empty => self.with(Tree::Empty),
        }
    }

    // A single operand stands for the whole level.
    fn whole(self, operator: Operator) -> Tree<A>
        ensures { tree_view result ≡ whole_of (op_view operator) (map tree_view self.trees.items) }
    {
        let mut trees = self.trees;
        if trees.len() < 2 {
            return match trees.pop() {
                Some(tree) => tree,
                None => Tree::Empty,
            };
        }
        match operator {
            Operator::All => Tree::And(trees),
            Operator::Any => Tree::Or(trees),
        }
    }
}

// The printed form of an operand.
fn operand<A: Allocator + Copy>(alloc: A, tree: &Tree<A>) -> Result<String<A>, AllocError>
    ensures { IfOk result (λ text. string_bytes text ≡ operand_text (tree_view tree.now)) }
{
    let mut text = String::new(alloc);
    push_operand(&mut text, tree)?;
    Ok(text)
}

// The place of the first text that is not less.
fn place_of<A: Allocator>(texts: &Vec<String<A>, A>, text: &str) -> Option<usize>
    ensures { result ≡ position (λ other. is_le (slice_cmp nat_cmp text.now (string_bytes other))) texts.now.items }
{
    texts.iter().position(|other| text <= other.as_str())
}

// The operands of a level, gathered.
fn gather<A: Allocator + Copy>(
    alloc: A,
    operator: Operator,
    mut trees: Vec<Tree<A>, A>,
) -> Result<Gathered<A>, AllocError>
    ensures { IfOk result (λ all. map tree_view all.trees.items ≡ gathered (op_view operator) (map tree_view trees.items)) }
{
    let mut all = Gathered::new(alloc);
    while let Some(tree) = trees.pop() {
        all = all.with_parts(operator, tree)?;
    }
    Ok(all)
}

/// The normal form: true for the same names.
#[cycle(normal)]
pub fn normal<A: Allocator + Copy>(alloc: A, tree: &Tree<A>) -> Result<Tree<A>, AllocError>
    ensures { IfOk result (λ other. tree_view other ≡ normal_of (tree_view tree.now)) }
{
    match tree {
        Tree::Empty => Ok(Tree::Empty),
        Tree::Term(name) => Ok(Tree::Term(String::from_str(alloc, name.as_str())?)),
        Tree::And(trees) => normal_level(alloc, Operator::All, trees),
        Tree::Or(trees) => normal_level(alloc, Operator::Any, trees),
    }
}

// The normal form of a level.
#[cycle(normal)]
fn normal_level<A: Allocator + Copy>(
    alloc: A,
    operator: Operator,
    trees: &Vec<Tree<A>, A>,
) -> Result<Tree<A>, AllocError>
    ensures { IfOk result (λ other. tree_view other
        ≡ whole_of (op_view operator) (normal_operands (op_view operator) (operands (map tree_view trees.now.items)))) }
{
    let normals = normal_each(alloc, trees)?;
    let all = gather(alloc, operator, normals)?;
    Ok(all.whole(operator))
}

// The normal form of each operand.
#[cycle(normal)]
fn normal_each<A: Allocator + Copy>(
    alloc: A,
    trees: &Vec<Tree<A>, A>,
) -> Result<Vec<Tree<A>, A>, AllocError>
    ensures { IfOk result (λ others. map tree_view others.items ≡ map (λ tree. normal_of (tree_view tree)) trees.now.items) }
{
    let mut others = Vec::new(alloc);
    for tree in trees {
        others.push(normal(alloc, tree)?)?;
    }
    Ok(others)
}
