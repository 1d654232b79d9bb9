//! Stations at the desks of a hall.
ghost use Rattle.std.specs.Prelude.{◌≡◌, [], All, IfOk, length};
ghost use Rattle.st_hall.specs.Views.{opening_seat};
ghost use Rattle.st_server.specs.Attending.{AreNew, new_station};

use crate::leaving::AtDesk;
use st_hall::{Commits, Desk, Gate, HallName, KeptFront};
use st_hall_station::Station;
use std::alloc::{AllocError, Global};
use std::sync::Wait;

/// Lets each read pass at once.
#[derive(Drop)]
pub struct Open;

impl Gate for Open {
    fn may_pass(&self, _worker: u64, _call: u64) -> bool {
        true
    }

    fn answered(&self, _worker: u64, _call: u64) {}

    fn gave_up(&self, _worker: u64, _call: u64) {}
}

impl<'a, H: HallName, M: Commits<H>, R: Wait> AtDesk<H> for Station<'a, H, M, Open, R> {
    ghost standing = { λ station. station };

    fn apart(self) -> (Desk<H>, KeptFront<H>) {
        Station::apart(self)
    }
}

// A station of this number at a desk of a hall that was just opened. That what the desk has seen is not kept never comes.
fn station_at<'a, H: HallName, M: Commits<H>, R: Wait>(
    rt: &'a R,
    alloc: Global,
    hall: &'a M,
    number: u64,
    desk: Desk<H>,
) -> Result<Station<'a, H, M, Open, R>, AllocError>
    requires { desk ≡ opening_seat [] }
    ensures { IfOk result (λ station. station ≡ new_station number) }
{
    match hall.find_kept(rt, &desk.front()) {
        Some(kept) => Station::new(rt, alloc, number, desk, kept, hall, &Open),
        None => {
            drop(desk);
            Err(AllocError)
        }
    }
}

// A station at each desk, numbered from 1.
pub(crate) fn stations_at<'a, H: HallName, M: Commits<H>, R: Wait>(
    rt: &'a R,
    alloc: Global,
    hall: &'a M,
    desks: Vec<Desk<H>>,
) -> Result<Vec<Station<'a, H, M, Open, R>>, AllocError>
    requires { All (λ desk. desk ≡ opening_seat []) desks.items }
    ensures new { IfOk result (λ stations. AreNew stations.items) }
    ensures all { IfOk result (λ stations. length stations.items ≡ length desks.items) }
{
    let mut stations: Vec<Station<'a, H, M, Open, R>> = Vec::with_capacity(alloc, desks.len())?;
    for desk in desks {
        let number = stations.len() as u64 + 1;
        let station = station_at(rt, alloc, hall, number, desk)?;
        stations.push(station).map_err(|_| AllocError)?;
    }
    Ok(stations)
}
