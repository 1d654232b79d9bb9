//! What is searched for in a sorted list.
ghost use Rattle.std.specs.Prelude.{◌≡◌, Bool, List, true};
ghost use Rattle.st_text.specs.Texts.{Text, comes_before};

/// A key that is searched for in a list of items of type `T` that is sorted by their keys. Contracts see
/// a key as a list of texts; keys are compared text by text, and texts byte by byte.
pub trait Wanted<T> {
    ghost item_key: { T → List Text };

    ghost key: { Self → List Text };

    ghost test: { Self → T → Bool };

    /// Whether the item's key comes before this one.
    fn is_after(&self, item: &T) -> bool
        ensures { result ≡ comes_before (item_key item.now) (key self.now) };

    /// Whether the item has this key.
    fn is_key_of(&self, item: &T) -> bool
        ensures { result ≡ test self.now item.now };

    ghost exact: { (w : Self) (x : T) → test w x ≡ true → item_key x ≡ key w };
}
