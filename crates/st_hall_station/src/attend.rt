//! A station serves connections.
use crate::station::Station;
use st_connection::streams::{Sink, Source};
use st_connection::{Attend, Ended, IoFault};
use st_hall::{Commits, Gate, HallName};
use std::sync::Wait;

impl<H: HallName, M: Commits<H>, G: Gate, W: Wait> Attend for Station<'_, H, M, G, W> {
    ghost use Rattle.std.specs.Prelude.{◌≤◌};
    ghost use mathlib.Core.List.{IsPrefix};
    ghost use Rattle.st_hall_station.specs.Standing.{ServesKept};
    ghost use Rattle.st_hall_station.specs.inner.Growing.{same_seat};

    ghost serves = { λ s t streams result. ServesKept H.start M.HOLD s t streams result };

    ghost grows = { λ s t. IsPrefix s.post.seat.seen t.post.seat.seen × (s.post.seat.made ≤ t.post.seat.made) };

    ghost stays = { λ s. same_seat s.post.seat };

    fn serve<R: Source, S: Sink>(
        &mut self,
        reader: &mut R,
        writer: &mut S,
    ) -> Result<Ended, IoFault> {
        Station::serve(self, reader, writer)
    }
}
