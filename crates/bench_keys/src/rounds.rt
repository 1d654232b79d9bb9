//! What is timed.
ghost use Rattle.std.specs.Prelude.{◌≤◌};

use rand_core::{Rng, SeedableRng};
use rand_xoshiro::SplitMix64;
use st_bigmin::{bigmin, first_from};
use st_box::{Query, ZBox};
use st_key::{Key, Period, interleave};
use st_plan::{plan, plan_box};
use std::alloc::Global;

// The side of the square, and the seconds of a week.
const SIDE: u64 = 1 << 21;

const WEEK: u64 = 604_800;

/// How often each call is made. Each method returns a number that depends on every answer.
#[derive(Clone, Copy)]
pub struct Rounds {
    count: u32,
}

impl Rounds {
    /// Rounds of this many calls.
    pub fn new(count: u32) -> Rounds {
        Rounds { count }
    }

    /// Addresses of places.
    pub fn interleaves(&self) -> u64 {
        let mut numbers = SplitMix64::seed_from_u64(1);
        let mut sum = 0;
        for _ in 0..self.count {
            let n = numbers.next_u64() >> 1;
            let x = (n >> 42) as u32 % (1 << 21);
            let y = (n >> 21 & 0x1f_ffff) as u32;
            let offset = (n & 0x1f_ffff) as u32;
            sum ^= interleave(x, y, offset);
        }
        sum
    }

    /// Jumps from anywhere into a box of a seventh of each side.
    pub fn jumps(&self) -> u64 {
        let mut numbers = SplitMix64::seed_from_u64(1);
        let mut sum = 0;
        if let Some(zbox) = ZBox::new(900_000, 1_200_000, 300_000, 600_000, 100_000, 190_000) {
            for _ in 0..self.count {
                sum ^= bigmin(numbers.next_u64() >> 1, &zbox).unwrap_or(0);
            }
        }
        sum
    }

    /// First keys of a query over three weeks, from anywhere in them.
    pub fn first_keys(&self) -> u64 {
        let mut numbers = SplitMix64::seed_from_u64(1);
        let mut sum = 0;
        if let Ok(query) = Query::new(900_000, 1_200_000, 300_000, 600_000, WEEK, 4 * WEEK) {
            for _ in 0..self.count {
                let bin = (numbers.next_u64() % 4) as u32;
                if let Some(from) = Key::new(bin, numbers.next_u64() >> 1, Period::Week) {
                    if let Some(key) = first_from(&query, from, Period::Week) {
                        sum ^= key.address();
                    }
                }
            }
        }
        sum
    }

    /// Plans of budget 16 for boxes of `percent` hundredths of each side: the number of their ranges.
    pub fn plans(&self, alloc: Global, percent: u64) -> u64
        requires { percent ≤ 50 }
    {
        let mut numbers = SplitMix64::seed_from_u64(1);
        let mut ranges = 0u64;
        let side = SIDE * percent / 100;
        let span = WEEK * percent / 100;
        for _ in 0..self.count {
            let x = numbers.next_u64() % (SIDE / 2);
            let y = numbers.next_u64() % (SIDE / 2);
            let t = numbers.next_u64() % (WEEK / 2);
            if let Ok(query) = Query::new(x, x + side, y, y + side, t, t + span) {
                if let Ok(plan) = plan(alloc, &query, 16, Period::Week) {
                    for part in plan.parts() {
                        ranges = ranges.wrapping_add(part.ranges.len() as u64);
                    }
                }
            }
        }
        ranges
    }

    /// Plans of budget 64 for the box of 8 places round the middle of the cube, which has 8 runs at
    /// each level but the highest.
    pub fn worst_plans(&self, alloc: Global) -> u64 {
        let mut ranges = 0u64;
        let middle = 1_048_576;
        if let Some(zbox) = ZBox::new(middle - 1, middle, middle - 1, middle, middle - 1, middle) {
            for _ in 0..self.count {
                if let Ok(plan) = plan_box(alloc, &zbox, 64) {
                    ranges = ranges.wrapping_add(plan.len() as u64);
                }
            }
        }
        ranges
    }
}
