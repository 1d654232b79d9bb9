//! What a new node is made of.
ghost use Rattle.std.specs.Prelude.{◌≡◌, IfOk};
ghost use Rattle.st_ubtree.specs.inner.Growing.{IsBlank};

use super::Node;
use super::aside::Aside;
use super::firsts::Firsts;
use st_tally::label_counts::LabelCount;
use st_tally::marks::Marks;
use st_tally::numbering::FEW_NUMBERS;
use st_tally::page_marks::PageMarks;
use st_tally::summary::MAX_LABELS;
use std::alloc::{AllocError, Allocator, Global};

/// Lists for the children of a new node and for their labels, what stands beside the children, and a list for the marks of the
/// pages that stay under the node beside it.
#[derive(Drop)]
pub struct Blank<A: Allocator = Global> {
    pub(super) kids: Vec<Node<A>, A>,
    pub(super) counts: Vec<LabelCount<A>, A>,
    pub(super) aside: Box<Aside<A>, A>,
    pub(super) pages: Vec<PageMarks, A>,
}

impl<A: Allocator + Copy> Blank<A> {
    /// Lists with room for as many children as a node may have, for as many labels as it counts, and for the marks of so many
    /// pages.
    pub fn new(alloc: A, places: usize) -> Result<Blank<A>, AllocError>
        ensures { IfOk result IsBlank }
    {
        let kids = Vec::with_capacity(alloc, 33)?;
        let counts = Vec::with_capacity(alloc, MAX_LABELS)?;
        let firsts = Firsts::none();
        let labels = Vec::with_capacity(alloc, FEW_NUMBERS)?;
        let marks = Marks::new(labels, Vec::with_capacity(alloc, places)?);
        Ok(Blank {
            kids,
            counts,
            aside: Box::new(alloc, Aside { firsts, marks })?,
            pages: Vec::with_capacity(alloc, places)?,
        })
    }
}
