//! Boxes in which rows are counted.
use crate::rows::number_of;
use st_box::Query;

/// A box to be counted in, and the class that it is of.
#[derive(Clone, Copy)]
pub struct Asked<'t> {
    pub class: &'t str,
    pub query: Query,
}

/// The box of a line `class x0 x1 y0 y1 t0 t1`.
pub fn box_in(line: &str) -> Option<Asked<'_>> {
    let mut words = line.split(' ');
    let class = words.next().unwrap_or("");
    let mut bounds = [0; 6];
    for bound in &mut bounds {
        *bound = number_of(words.next());
    }
    let [x0, x1, y0, y1, t0, t1] = bounds;
    match Query::new(x0, x1, y0, y1, t0, t1) {
        Ok(query) => Some(Asked { class, query }),
        Err(_) => None,
    }
}
