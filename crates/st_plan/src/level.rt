//! The level of a plan.
ghost use Rattle.std.specs.Prelude.{◌↔◌, ℕ, ◌<◌, ◌≤◌, IsTrue};
ghost use Rattle.st_box.specs.ZBox.{IsInside};
ghost use Rattle.st_plan.specs.Coarse.{InCoarse, IsTooFine};
ghost use Rattle.st_plan.specs.inner.Levels.{HasFewRuns, HasManyRuns};

use st_bigmin::next_run;
use st_box::ZBox;

/// The box with each bound divided by 2 to the power `level`.
pub fn coarse(zbox: &ZBox, level: u32) -> ZBox
    requires { level ≤ 21 }
    ensures inside { (a : ℕ) → IsInside result a ↔ InCoarse zbox.now level a }
{
    ZBox {
        x_first: zbox.x_first >> level,
        x_last: zbox.x_last >> level,
        y_first: zbox.y_first >> level,
        y_last: zbox.y_last >> level,
        offset_first: zbox.offset_first >> level,
        offset_last: zbox.offset_last >> level,
    }
}

// Whether the coarse box of a level has more runs than the budget.
fn exceeds(zbox: &ZBox, level: u32, budget: u32) -> bool
    requires { level ≤ 21 }
    ensures more { IsTrue result → HasManyRuns zbox.now level budget }
    ensures fits { (IsTrue result → ⊥) → HasFewRuns zbox.now level budget }
{
    let whole = coarse(zbox, level);
    let mut from = 0;
    for _ in 0..budget {
        match next_run(from, &whole) {
            Some(run) => from = run.last + 1,
            None => return false,
        }
    }
    match next_run(from, &whole) {
        Some(_) => true,
        None => false,
    }
}

/// The least level whose coarse box has no more runs than the budget.
pub fn level_within(zbox: &ZBox, budget: u32) -> u32
    requires { 0 < budget }
    ensures fits { HasFewRuns zbox.now result budget }
    ensures least { (finer : ℕ) → finer < result → IsTooFine zbox.now budget finer }
    ensures in_range { result ≤ 21 }
{
    let mut level = 21;
    while level > 0 {
        let finer = level - 1;
        if exceeds(zbox, finer, budget) {
            return level;
        }
        level = finer;
    }
    level
}
