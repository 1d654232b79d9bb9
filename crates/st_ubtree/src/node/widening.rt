//! Room for more labels, and for the marks of more pages.
ghost use Rattle.std.specs.Prelude.{◌≡◌};

use super::marking::mark_if;
use super::{Kids, Node};
use st_key::Key;
use st_tally::marks::Room;
use std::alloc::Allocator;

impl<A: Allocator + Copy> Node<A> {
    /// Gives the lowest node over the page of a key room for more labels or pages, and marks its pages that have no marks then.
    pub fn widen(&mut self, key: Key, room: Room<A>)
        ensures { self.new ≡ self.old }
    {
        let Kids::Inner(kids, aside) = &mut self.kids else {
            return;
        };
        let aside = &mut **aside;
        if self.height == 1 {
            aside.marks.make_room(room);
            mark_if(true, &mut aside.marks, kids);
            return;
        }
        let at = aside.firsts.child_for(key);
        let kid = &mut kids[at];
        kid.widen(key, room);
    }

    /// The same, if there is such room.
    pub fn widen_if(&mut self, key: Key, room: Option<Room<A>>)
        ensures { self.new ≡ self.old }
    {
        match room {
            Some(room) => self.widen(key, room),
            None => {}
        }
    }
}
