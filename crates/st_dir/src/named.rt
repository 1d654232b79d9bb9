//! Names as keys of sorted lists.
ghost use Rattle.std.specs.Prelude.{◌∷◌, []};
ghost use Rattle.std.proofs.Common.{ap};
ghost use Rattle.st_text.specs.Texts.{same};
ghost use Rattle.st_text.proofs.Same.{same-eq};
ghost use Rattle.st_sorted.specs.Sorted.{name_key};
ghost use Rattle.st_dir.specs.Order.{user_key, table_key};

use crate::table::TableInfo;
use crate::user::User;
use st_grant::Named;
use st_sorted::Wanted;
use std::alloc::Allocator;

impl<'n, A: Allocator> Wanted<User<A>> for Named<'n> {
    ghost item_key = { user_key };

    ghost key = { name_key };

    ghost test = { λ name user. same user.name name };

    ghost exact = { λ name user e. ap (λ t. t ∷ []) (same-eq user.name name e) };

    fn is_after(&self, user: &User<A>) -> bool {
        user.name.as_str() < self.0
    }

    fn is_key_of(&self, user: &User<A>) -> bool {
        user.name.is(self.0)
    }
}

impl<'n> Wanted<TableInfo> for Named<'n> {
    ghost item_key = { table_key };

    ghost key = { name_key };

    ghost test = { λ name info. same info.table name };

    ghost exact = { λ name info e. ap (λ t. t ∷ []) (same-eq info.table name e) };

    fn is_after(&self, info: &TableInfo) -> bool {
        info.table.as_str() < self.0
    }

    fn is_key_of(&self, info: &TableInfo) -> bool {
        info.table.is(self.0)
    }
}
