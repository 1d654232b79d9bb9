//! Laws of the definitions, each the contract of a function that does nothing.
ghost use Rattle.std.specs.Prelude.{◌≡◌};
ghost use Rattle.st_box.specs.Query.{Makes};
ghost use Rattle.st_box.specs.inner.Bounds.{HasBounds};
ghost use Rattle.st_box.specs.declared.query.Query.{Query};
ghost use Rattle.st_box.specs.declared.zbox.ZBox.{ZBox};

/// Queries with the same bounds are the same query.
pub fn equal_queries()
    ensures { (p q : Query) → Makes p.x0 p.x1 p.y0 p.y1 p.t0 p.t1 q → q ≡ p }
{}

/// Boxes with the same bounds are the same box.
pub fn equal_boxes()
    ensures { (b c : ZBox) → HasBounds b.x_first b.x_last b.y_first b.y_last b.offset_first b.offset_last c → c ≡ b }
{}
