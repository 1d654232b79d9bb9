//! Laws of the definitions, for every text.
ghost use Rattle.std.specs.Prelude.{◌≡◌, ◌<◌, ◌≤◌, ◌+◌, ◌∷◌, false, true, Bool, ◌↔◌, ◌++◌, List, ℕ, length, Some};
ghost use Rattle.st_http.specs.First.{First, IsItem, message, more, IsFirst, expects, size_of};
ghost use Rattle.st_http.specs.Items.{Items, after_item, closes};
ghost use Rattle.st_http.specs.inner.Messages.{IsMessage};
ghost use Rattle.st_http.specs.Fields.{Fields};
ghost use Rattle.st_http.specs.Token.{token_of};
ghost use Rattle.st_text.specs.Names.{is_name};
ghost use Rattle.httparse.specs.Grammar.{RequestHead};

/// A text begins with one thing only.
pub fn one_first()
    ensures { (text : List ℕ) (a b : First) → IsFirst text a → IsFirst text b → a ≡ b }
{}

/// What a text begins with stays when text is appended, unless it was too short to tell.
pub fn first_stays()
    ensures { (text after : List ℕ) (first : First) → IsItem first → IsFirst text first → IsFirst (text ++ after) first }
{}

/// Where the client may wait with the body, it may, and for the same, whatever of the body came.
pub fn expects_stays()
    ensures { (text after : List ℕ) (first : First) → IsFirst text (more true) → IsFirst (text ++ after) first → expects first ≡ true }
{}

/// A text that is too short to tell has fewer bytes than the longest head and the longest body together.
pub fn more_is_short()
    ensures { (text : List ℕ) (waits : Bool) → IsFirst text (more waits) → length text < 8192 + 65536 }
{}

/// A text begins with a message exactly where it begins with its head and its body.
pub fn message_is()
    ensures { (text : List ℕ) (h : RequestHead) (body : List ℕ) (bare : Bool)
        → IsFirst text (message h body bare) ↔ IsMessage text h body bare }
{}

/// A message has at least one byte, and no more than its text.
pub fn message_fits()
    ensures { (text : List ℕ) (h : RequestHead) (body : List ℕ) (bare : Bool) → IsFirst text (message h body bare)
        → (0 < size_of h body) × (size_of h body ≤ length text) }
{}

/// A text has one list of items, and one rest.
pub fn one_list()
    ensures { (text : List ℕ) (a b : List First) (x y : List ℕ) → Items text a x → Items text b y → (a ≡ b) × (x ≡ y) }
{}

/// The items behind one that does not close are those of the text behind it, also when more text has come meanwhile.
pub fn next_items()
    ensures { (text after rest : List ℕ) (item : First) (items : List First) → IsFirst text item → closes item ≡ false
        → Items (after_item text item ++ after) items rest → Items (text ++ after) (item ∷ items) rest }
{}

/// The user of a token is a name.
pub fn user_is_name()
    ensures { (fields : Fields) (user secret : List ℕ) → token_of fields ≡ Some (user, secret) → is_name user ≡ true }
{}
