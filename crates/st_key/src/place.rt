//! Places in a scan.

use crate::point::Point;
use st_text::Words;
use std::alloc::{Allocator, Global};

/// A position in a scan: a point, an id and the text of a label. The two texts are arbitrary and
/// need not belong to a row.
#[derive(Drop)]
pub struct Place<A: Allocator = Global> {
    pub point: Point,
    pub id: Words<A>,
    pub label: Words<A>,
}
