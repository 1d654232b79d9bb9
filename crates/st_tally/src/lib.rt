//! What the nodes of a tree know of the rows below them: bounds of their points, how many there are of each label, and the labels
//! and points of each page's rows beside each other; and how rows are counted by it.
#![tactic(auto)]

pub mod bounds;
mod copies;
pub mod field_marked;
pub mod label_counts;
mod label_places;
pub mod marked;
pub mod marks;
pub mod numbering;
pub mod page_marks;
mod spots;
pub mod summary;
mod testing;
pub mod verdicts;
