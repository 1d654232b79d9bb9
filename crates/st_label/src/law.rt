//! Laws of the language, each the contract of a function that does nothing.
ghost use Rattle.std.specs.Prelude.{◌≡◌, ◌≢◌, ◌≤◌, ◌⊎◌, ℕ, List, Bool, length};
ghost use Rattle.st_label.specs.Tree.{Tree, Or, none};
ghost use Rattle.st_label.specs.Grammar.{Reads};
ghost use Rattle.st_label.specs.Refusals.{max_depth};
ghost use Rattle.st_label.specs.Reading.{reading, is_true, IsLabel};
ghost use Rattle.st_label.specs.Faults.{RefusesLabel};
ghost use Rattle.st_label.specs.Normal.{normal, normal_text};
ghost use Rattle.st_label.specs.declared.label.LabelFault.{LabelFault};
ghost use Rattle.st_label.specs.declared.label.LabelFault.TheVariants.{NoMemory};

/// A text of the grammar has one tree, and that is its reading. The reading of any other text is true for
/// nobody.
pub fn one_reading()
    ensures one { (d e : ℕ) (text : List ℕ) (r s : Tree) → Reads d text r → Reads e text s → r ≡ s }
    ensures reading { (text : List ℕ) (tree : Tree) → Reads max_depth text tree → reading text ≡ tree }
    ensures nothing { (text : List ℕ) → ((tree : Tree) → Reads max_depth text tree → ⊥) → reading text ≡ Or none }
{}

/// A text either is a label or is refused, with exactly one fault.
pub fn one_answer()
    ensures some { (text : List ℕ) → IsLabel text ⊎ ((fault : LabelFault) × (fault ≢ NoMemory) × RefusesLabel text fault) }
    ensures not_both { (text : List ℕ) (fault : LabelFault) → fault ≢ NoMemory → IsLabel text → RefusesLabel text fault → ⊥ }
    ensures one { (text : List ℕ) (fault other : LabelFault) → fault ≢ NoMemory → other ≢ NoMemory
        → RefusesLabel text fault → RefusesLabel text other → fault ≡ other }
{}

/// The normal form of a label is a label, and true for the same names. Its text reads as the normal form of
/// what the label reads as, and is its own normal form.
pub fn normal_form()
    ensures label { (label : List ℕ) → IsLabel label → IsLabel (normal_text label) }
    ensures reading { (label : List ℕ) → IsLabel label → reading (normal_text label) ≡ normal (reading label) }
    ensures truth { (label : List ℕ) (has : List ℕ → Bool) → IsLabel label
        → is_true has (normal_text label) ≡ is_true has label }
    ensures idempotent { (label : List ℕ) → IsLabel label → normal_text (normal_text label) ≡ normal_text label }
    ensures short { (label : List ℕ) → IsLabel label → length (normal_text label) ≤ length label }
{}
