//! Rows in scan order, and what an index of them promises.
#![tactic(auto)]

mod copying;
pub mod counting;
pub mod entries;
mod entry;
pub mod field_counting;
mod fields;
mod id;
mod index;
mod judge;
pub mod law;
mod list_index;
mod naming;
mod note;
pub mod order;
mod placing;
mod room;
mod row;
mod row_point;
mod row_view;
mod rows_view;
mod storage;

pub use entry::Entry;
pub use fields::Fields;
pub use id::{Id, MAX_ID};
pub use index::{AsRow, KeyRange, Leaf, RowIndex};
pub use judge::Judge;
pub use list_index::{ListIndex, ListSpare};
pub use note::{MAX_NOTE, Note};
pub use row::Row;
pub use row_view::RowView;
pub use rows_view::RowsView;
