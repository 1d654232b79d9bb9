//! Names as keys of sorted lists.
ghost use Rattle.std.proofs.Common.{ap, sym};
ghost use Rattle.st_text.specs.Texts.{same};
ghost use Rattle.st_text.proofs.Same.{same-eq};
ghost use Rattle.st_sorted.specs.Sorted.{name_key};

use crate::name::Name;
use st_sorted::Wanted;
use st_text::CompactText;
use std::alloc::Allocator;
use std::marker::Model;

/// A name that is searched for.
#[derive(Drop)]
pub struct Named<'n>(pub &'n str);

impl<'n> Model for Named<'n> {
    ghost use Rattle.std.specs.Prelude.{ℕ, List};

    ghost Value = { List ℕ };

    ghost view = { λ n. n.0.now };
}

impl<'n> Wanted<Name> for Named<'n> {
    ghost item_key = { name_key };

    ghost key = { name_key };

    ghost test = { same };

    ghost exact = { λ name item e. ap name_key (sym (same-eq name item e)) };

    fn is_after(&self, item: &Name) -> bool {
        item.as_str() < self.0
    }

    fn is_key_of(&self, item: &Name) -> bool {
        self.0 == item.as_str()
    }
}

impl<'n, A: Allocator> Wanted<CompactText<A>> for Named<'n> {
    ghost item_key = { name_key };

    ghost key = { name_key };

    ghost test = { same };

    ghost exact = { λ name item e. ap name_key (sym (same-eq name item e)) };

    fn is_after(&self, item: &CompactText<A>) -> bool {
        item.as_str() < self.0
    }

    fn is_key_of(&self, item: &CompactText<A>) -> bool {
        self.0 == item.as_str()
    }
}
