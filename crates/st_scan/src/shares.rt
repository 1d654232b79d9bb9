//! Equal shares that the numbers from one to another are cut into.
//!
//! The factor of a grid is rounded up, and the widths are few enough that the product gives the same as the division.
ghost use Rattle.std.specs.Prelude.{◌≡◌, ℕ, ◌+◌, ◌-◌, ◌*◌, ◌/◌, ◌<◌, ◌≤◌, ◌^◌, IfSome};

// In how many parts a share is counted where it is found by a factor: no fewer than the square of the greatest width.
const FULL: u64 = 1 << 42;

// Which of so many equal shares of the numbers from one to another a number of them is in.
fn share_of(first: u32, last: u32, shares: u32, number: u32) -> u32
    requires some { 1 ≤ shares }
    requires few { shares ≤ 32 }
    requires from { first ≤ number }
    requires to { number ≤ last }
    requires in_range { last < 2 ^ 21 }
    ensures value { result ≡ (number - first) * shares / (last - first + 1) }
    ensures below { result < shares }
{
    (number - first) * shares / (last - first + 1)
}

// The one share that those of the numbers are in that are between two others, if they are found to share one.
fn one_share(first: u32, last: u32, shares: u32, from: u32, to: u32) -> Option<u32>
    requires some { 1 ≤ shares }
    requires few { shares ≤ 32 }
    requires in_range { last < 2 ^ 21 }
    ensures some { IfSome result (λ share. (number : ℕ) → first ≤ number → number ≤ last → from ≤ number → number ≤ to
        → (number - first) * shares / (last - first + 1) ≡ share) }
    ensures below { IfSome result (λ share. share < shares) }
{
    let (from, to) = (from.max(first), to.min(last));
    // Numbers that are further apart than a share is wide are in several, which needs no division to see.
    if from > to || (to - from) * shares > last - first {
        return None;
    }
    let share = share_of(first, last, shares, from);
    if share_of(first, last, shares, to) != share {
        return None;
    }
    Some(share)
}

// So many equal shares of the numbers from one to another. The factor is how much of a share each number makes, in parts and
// rounded up, so that to find the share of a number takes a product and no division. All that rounding adds is less than a
// share divided by the width, and each number is at least so far from the next share.
#[derive(Clone, Copy)]
pub(crate) struct Shares {
    first: u32,
    last: u32,
    pub(crate) shares: u32,
    factor: u64,
    ghost some: { 1 ≤ shares },
    ghost few: { shares ≤ 32 },
    ghost in_order: { first ≤ last },
    ghost in_range: { last < 2 ^ 21 },
    ghost rounded_up: { factor ≡ shares * 2 ^ 42 / (last - first + 1) + 1 },
}

impl Shares {
    // So many equal shares of the numbers from one to another.
    pub(crate) fn new(first: u32, last: u32, shares: u32) -> Shares
        requires some { 1 ≤ shares }
        requires few { shares ≤ 32 }
        requires in_order { first ≤ last }
        requires in_range { last < 2 ^ 21 }
        ensures first { result.first ≡ first }
        ensures last { result.last ≡ last }
        ensures shares { result.shares ≡ shares }
    {
        let width = u64::from(last - first) + 1;
        Shares {
            first,
            last,
            shares,
            factor: u64::from(shares) * FULL / width + 1,
        }
    }

    // Which share a number is in.
    pub(crate) fn of(&self, number: u32) -> u32
        requires from { self.now.first ≤ number }
        requires to { number ≤ self.now.last }
        ensures value { result ≡ (number - self.now.first) * self.now.shares / (self.now.last - self.now.first + 1) }
        ensures below { result < self.now.shares }
    {
        (u64::from(number - self.first) * self.factor / FULL) as u32
    }

    // The one share that those of the numbers are in that are between two others, if they are found to share one.
    pub(crate) fn one(&self, from: u32, to: u32) -> Option<u32>
        ensures some { IfSome result (λ share. (number : ℕ) → self.now.first ≤ number → number ≤ self.now.last
            → from ≤ number → number ≤ to
            → (number - self.now.first) * self.now.shares / (self.now.last - self.now.first + 1) ≡ share) }
        ensures below { IfSome result (λ share. share < self.now.shares) }
    {
        one_share(self.first, self.last, self.shares, from, to)
    }
}
