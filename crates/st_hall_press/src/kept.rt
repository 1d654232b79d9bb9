//! What of the list of a hall is kept.
ghost use Rattle.std.specs.Prelude.{◌≡◌, ◌≤◌, ◌<◌, length, IfNone, IfSome};
ghost use mathlib.Core.List.{IsPrefix};

use crate::front::Front;
use crate::name::HallName;
use st_watermark::{Reached, Watermark};
use std::marker::{Model, PhantomData};

/// A beginning of the list of a hall that is kept. Contracts see it as its changes.
#[derive(Drop)]
pub struct KeptFront<H: HallName> {
    front: Front<H>,
    // So many changes of the list are known to be kept.
    most: u64,
    reached: Reached,
}

impl<H: HallName> Model for KeptFront<H> {
    ghost use Rattle.std.specs.Prelude.{◌≡◌, ◌≤◌, List, length};
    ghost use Rattle.st_hall_press.specs.Steps.{Ask};

    ghost Value = { List Ask };

    ghost view = { λ k. k.front };

    ghost invariant = { λ k. (length k.front ≤ k.most) × (k.reached.at ≡ k.most) × (k.reached.name ≡ H.mark) };
}

impl<H: HallName> KeptFront<H> {
    /// An equal one.
    pub fn again(&self) -> KeptFront<H>
        ensures { result ≡ self.now }
    {
        KeptFront {
            front: self.front.again(),
            most: self.most,
            reached: self.reached.again(),
        }
    }

    /// Its changes, as a front.
    pub fn front(&self) -> &Front<H>
        ensures { result.now ≡ self.now }
    {
        &self.front
    }

    /// The longer of two, which the other begins.
    pub fn longer(&self, other: &KeptFront<H>) -> KeptFront<H>
        ensures this { IsPrefix self.now result }
        ensures that { IsPrefix other.now result }
    {
        self.front.compare(&other.front);
        if self.front.len() < other.front.len() {
            other.again()
        } else {
            self.again()
        }
    }

    /// The kept-front token of a front that is at most as long as this one.
    pub fn as_kept(&self, front: &Front<H>) -> KeptFront<H>
        requires { length front.now ≤ length self.now }
        ensures { result ≡ front.now }
    {
        KeptFront {
            front: front.again(),
            most: self.most,
            reached: self.reached.again(),
        }
    }

    /// The kept-front token of a front, or `None` if the front is longer than what this token knows to be kept.
    pub fn find(&self, front: &Front<H>) -> Option<KeptFront<H>>
        ensures some { IfSome result (λ kept. kept ≡ front.now) }
        ensures none { IfNone result (length self.now < length front.now) }
    {
        if front.len() <= self.most {
            Some(KeptFront {
                front: front.again(),
                most: self.most,
                reached: self.reached.again(),
            })
        } else {
            None
        }
    }
}

/// The number of kept changes of a hall's list, which only its holder can raise. Contracts see it as that number.
#[derive(Drop)]
pub struct KeptMark<H: HallName> {
    most: u64,
    mark: Watermark,
    of: PhantomData<H>,
}

impl<H: HallName> Model for KeptMark<H> {
    ghost use Rattle.std.specs.Prelude.{◌≡◌, ℕ};

    ghost Value = { ℕ };

    ghost view = { λ m. m.most };

    ghost invariant = { λ m. (m.mark.at ≡ m.most) × (m.mark.name ≡ H.mark) };
}

// `u64::MAX`, and that neither argument exceeds it.
fn largest(one: u64, other: u64) -> u64
    ensures one { one ≤ result }
    ensures other { other ≤ result }
{
    let larger = if one < other { other } else { one };
    if larger < u64::MAX { u64::MAX } else { larger }
}

impl<H: HallName> KeptMark<H> {
    /// None is kept yet.
    pub fn begin(mark: Watermark) -> KeptMark<H>
        requires { (mark.name ≡ H.mark) × (mark.at ≡ 0) }
        ensures { result ≡ 0 }
    {
        KeptMark {
            most: 0,
            mark,
            of: PhantomData,
        }
    }

    /// So many are kept from now on.
    pub fn rise(&mut self, to: u64)
        requires { self.old ≤ to }
        ensures { self.new ≡ to }
    {
        self.mark.rise(to);
        self.most = to;
    }

    /// The kept-front token of a front. From then on every front of the list counts as kept.
    pub fn keep_all(&mut self, front: Front<H>) -> KeptFront<H>
        ensures is { result ≡ front }
        ensures grows { self.old ≤ self.new }
    {
        let all = largest(self.most, front.len());
        self.rise(all);
        self.token(front)
    }

    /// A front as one that is kept.
    pub fn token(&mut self, front: Front<H>) -> KeptFront<H>
        requires { length front ≤ self.old }
        ensures same { self.new ≡ self.old }
        ensures is { result ≡ front }
    {
        KeptFront {
            front,
            most: self.most,
            reached: self.mark.reached(),
        }
    }

    /// No kept-front token is longer than this mark. A lemma: it does nothing at run time.
    pub fn bounds(&mut self, kept: &KeptFront<H>)
        ensures same { self.new ≡ self.old }
        ensures bounds { length kept.now ≤ self.old }
    {
        self.mark.bounds(&kept.reached);
    }
}
