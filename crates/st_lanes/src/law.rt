//! Laws of the definitions, each the contract of a function that does nothing.
ghost use Rattle.std.specs.Prelude.{ℕ, ◌↔◌, ◌<◌, ◌^◌};
ghost use Rattle.st_key.specs.Morton.{address_of};
ghost use Rattle.st_box.specs.ZBox.{IsInside};
ghost use Rattle.st_box.specs.declared.zbox.ZBox.{ZBox};
ghost use Rattle.st_lanes.specs.inner.Lanes.{IsInBox};

/// A place is in a box if and only if its address is one of the box.
pub fn places()
    ensures { (b : ZBox) (x y offset : ℕ) → x < 2 ^ 21 → y < 2 ^ 21 → offset < 2 ^ 21
        → IsInBox b x y offset ↔ IsInside b (address_of x y offset) }
{}
