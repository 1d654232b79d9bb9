//! A worker's state at its last sync.
ghost use Rattle.std.specs.Prelude.{◌≡◌, IfSome};

use st_hall_desk::Desk;
use st_hall_press::HallName;
use st_hall_press::front::Front;
use st_hall_press::kept::KeptFront;
use std::marker::Model;

// A worker's post as it was when all that it had seen was last kept.
#[derive(Drop)]
pub(crate) struct Synced<H: HallName> {
    pub number: u64,
    pub calls: u64,
    pub learnt: Front<H>,
    pub seen: KeptFront<H>,
    pub made: u64,
}

impl<H: HallName> Model for Synced<H> {
    ghost use Rattle.st_hall_press.specs.Views.{Post};

    ghost Value = { Post };

    ghost view = { λ s. record {
      number = s.number;
      calls = s.calls;
      learnt = s.learnt;
      seat = record { seen = s.seen; made = s.made };
    } };
}

impl<H: HallName> Synced<H> {
    // A post of this number, and how the desk stands, of which all that it has seen is kept.
    pub(crate) fn of(
        number: u64,
        calls: u64,
        learnt: &Front<H>,
        desk: &Desk<H>,
        kept: KeptFront<H>,
    ) -> Synced<H>
        requires { kept ≡ desk.now.seen }
        ensures { result ≡ record { number = number; calls = calls; learnt = learnt.now; seat = desk.now } }
    {
        Synced {
            number,
            calls,
            learnt: learnt.again(),
            seen: kept,
            made: desk.made(),
        }
    }

    // What it had seen.
    pub(crate) fn into_seen(self) -> KeptFront<H>
        ensures { result ≡ self.seat.seen }
    {
        self.seen
    }

    // The kept-front token of a front, if the front was known to be kept then.
    pub(crate) fn find(&self, front: &Front<H>) -> Option<KeptFront<H>>
        ensures { IfSome result (λ kept. kept ≡ front.now) }
    {
        self.seen.find(front)
    }
}
