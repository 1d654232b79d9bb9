//! The laws of texts in order, each the contract of a function that does nothing.
ghost use Rattle.std.specs.Prelude.{◌≡◌, ◌↔◌, IsTrue, List};
ghost use Rattle.std.specs.Cmp.Lexicographic.{slice_cmp};
ghost use Rattle.std.specs.List.Sorted.{IsPermutation, IsSortedByKey};
ghost use Rattle.std.specs.Ordering.{nat_cmp};
ghost use Rattle.st_text.specs.Texts.{Text, same, in_order};

/// `in_order` sorts a list by its keys, and neither adds nor drops an element.
pub fn in_order<T>()
    ensures sorted { (key : T → List Text) (xs : List T)
        → IsSortedByKey key (slice_cmp (slice_cmp nat_cmp)) (in_order key xs) }
    ensures same { (key : T → List Text) (xs : List T) → IsPermutation xs (in_order key xs) }
{}

/// Two texts are the same if and only if their bytes are equal.
pub fn same_is_equal()
    ensures { (a b : Text) → IsTrue (same a b) ↔ (a ≡ b) }
{}
