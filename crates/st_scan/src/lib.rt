//! Walks over the rows of a query, and what they show: pages, counts and grids.
#![tactic(auto)]

mod after;
mod counts;
mod exact;
mod fault;
mod few;
mod grids;
mod own_plan;
mod pages;
mod paging;
mod part_ranges;
mod position;
mod shares;
mod sight;
mod step;
mod verdicts;
mod walk;

pub use counts::count;
pub use fault::ScanFault;
pub use grids::{MAX_SHARES, grid};
pub use pages::Page;
pub use paging::{MAX_ROWS, page};
pub use walk::Walk;
