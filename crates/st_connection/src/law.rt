//! What the definitions say of each text, whatever the program does.
ghost use Rattle.std.specs.Prelude.{◌≡◌, ◌++◌, List, ℕ};
ghost use Rattle.st_http.specs.First.{First};
ghost use Rattle.st_http.specs.Items.{Items};
ghost use Rattle.st_connection.specs.Items.{BeginsWith};

/// The items that a text begins with are the first of those that it has.
pub fn first_items()
    ensures { (text : List ℕ) (items all : List First) (rest end : List ℕ) → BeginsWith text items rest → Items text all end
        → (others : List First) × (all ≡ items ++ others) }
{}
