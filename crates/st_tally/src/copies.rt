//! Equal copies of what nodes know. Their lists have room for as many labels and pages.
ghost use Rattle.std.specs.Prelude.{◌≡◌, IfOk};

use crate::label_counts::{LabelCount, LabelCounts};
use crate::marks::Marks;
use crate::page_marks::PageMarks;
use crate::summary::Summary;
use st_label::Label;
use std::alloc::{AllocError, Allocator};

impl<A: Allocator + Copy> LabelCount<A> {
    // An equal label with an equal number.
    fn copy(&self) -> Result<LabelCount<A>, AllocError>
        ensures { IfOk result (λ count. count ≡ self.now) }
    {
        Ok(LabelCount {
            label: self.label.copy()?,
            rows: self.rows,
        })
    }
}

// Equal labels with equal numbers, in order.
fn copy_counts<A: Allocator + Copy>(
    counts: &Vec<LabelCount<A>, A>,
) -> Result<Vec<LabelCount<A>, A>, AllocError>
    ensures { IfOk result (λ copies. copies.items ≡ counts.now.items) }
{
    let mut copies = Vec::with_capacity(*counts.allocator(), counts.capacity())?;
    for count in counts {
        copies.push(count.copy()?)?;
    }
    Ok(copies)
}

impl<A: Allocator + Copy> LabelCounts<A> {
    // Equal numbers under equal labels.
    fn copy(&self) -> Result<LabelCounts<A>, AllocError>
        ensures counts { IfOk result (λ other. other.counts.items ≡ self.now.counts.items) }
        ensures all { IfOk result (λ other. other.are_all ≡ self.now.are_all) }
    {
        Ok(LabelCounts {
            counts: copy_counts(&self.counts)?,
            are_all: self.are_all,
        })
    }
}

impl<A: Allocator + Copy> Summary<A> {
    /// A summary of the same rows. An error if memory runs out.
    pub fn copy(&self) -> Result<Summary<A>, AllocError>
        ensures bounds { IfOk result (λ other. other.bounds ≡ self.now.bounds) }
        ensures counts { IfOk result (λ other. other.labels.counts.items ≡ self.now.labels.counts.items) }
        ensures all { IfOk result (λ other. other.labels.are_all ≡ self.now.labels.are_all) }
        ensures removals { IfOk result (λ other. other.removals ≡ self.now.removals) }
    {
        Ok(Summary {
            bounds: self.bounds,
            labels: self.labels.copy()?,
            removals: self.removals,
        })
    }
}

// Equal labels, in order.
fn copy_labels<A: Allocator + Copy>(
    labels: &Vec<Label<A>, A>,
) -> Result<Vec<Label<A>, A>, AllocError>
    ensures { IfOk result (λ copies. copies.items ≡ labels.now.items) }
{
    let mut copies = Vec::with_capacity(*labels.allocator(), labels.capacity())?;
    for label in labels {
        copies.push(label.copy()?)?;
    }
    Ok(copies)
}

// Equal marks of pages, in order.
fn copy_pages<A: Allocator + Copy>(
    pages: &Vec<PageMarks, A>,
) -> Result<Vec<PageMarks, A>, AllocError>
    ensures { IfOk result (λ copies. copies.items ≡ pages.now.items) }
{
    let mut copies = Vec::with_capacity(*pages.allocator(), pages.capacity())?;
    copies.extend_from_slice(pages)?;
    Ok(copies)
}

impl<A: Allocator + Copy> Marks<A> {
    /// Equal marks of as many pages, with equal numbers for equal labels. An error if memory runs out.
    pub fn copy(&self) -> Result<Marks<A>, AllocError>
        ensures labels { IfOk result (λ other. other.labels.items ≡ self.now.labels.items) }
        ensures slots { IfOk result (λ other. other.slots.items ≡ self.now.slots.items) }
        ensures pages { IfOk result (λ other. other.pages.items ≡ self.now.pages.items) }
    {
        Ok(Marks {
            labels: copy_labels(&self.labels)?,
            slots: Vec::from_slice(*self.slots.allocator(), &self.slots)?,
            pages: copy_pages(&self.pages)?,
        })
    }
}
