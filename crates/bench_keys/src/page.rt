//! A page of 32 points, each tested against a box: by a mask of eight at a time, by their keys, and as a page's marks are tested.

use rand_core::{Rng, SeedableRng};
use rand_xoshiro::SplitMix64;
use st_box::{KeyTest, Query, ZBox};
use st_key::{Key, Period, gather};
use st_lanes::in_box_mask;

const POINTS: usize = 32;

// The box of a round is that of the first one, so much to the right.
const STEP: u32 = 64;

const TURNS: u32 = 4096;

const WIDTH: u32 = 1 << 20;

const SPAN: u32 = 500_000;

/// Points of one week, as keys, as three coordinates, and in two numbers of 32 bits each as `st_tally` marks them. Each method
/// returns how many of them lie in the boxes of so many rounds.
#[derive(Clone, Copy)]
pub struct Page {
    addresses: [u64; POINTS],
    xs: [u32; POINTS],
    ys: [u32; POINTS],
    offsets: [u32; POINTS],
    lows: [u32; POINTS],
    highs: [u32; POINTS],
}

// How many are set.
fn count_of(inside: &[bool; POINTS]) -> u64 {
    let mut count = 0u64;
    for is_inside in inside {
        count = count.wrapping_add(u64::from(*is_inside));
    }
    count
}

impl Page {
    /// Points anywhere in a week.
    pub fn random() -> Page {
        let mut numbers = SplitMix64::seed_from_u64(1);
        let mut page = Page {
            addresses: [0; POINTS],
            xs: [0; POINTS],
            ys: [0; POINTS],
            offsets: [0; POINTS],
            lows: [0; POINTS],
            highs: [0; POINTS],
        };
        for place in 0..POINTS {
            let address = numbers.next_u64() >> 1;
            let (x, y, offset) = (gather(address), gather(address >> 1), gather(address >> 2));
            page.addresses[place] = address;
            page.xs[place] = x;
            page.ys[place] = y;
            page.offsets[place] = offset;
            page.lows[place] = x | (y << 21);
            page.highs[place] = (y >> 11) | (offset << 10);
        }
        page
    }

    /// By the mask of their coordinates, which lie ready.
    pub fn masks(&self, rounds: u32) -> u64 {
        let mut count = 0u64;
        let mut inside = [false; POINTS];
        for round in 0..rounds {
            let left = round % TURNS * STEP;
            if let Some(zbox) = ZBox::new(left, left + WIDTH, 0, WIDTH, 0, SPAN) {
                in_box_mask(&self.xs, &self.ys, &self.offsets, &zbox, &mut inside);
                count = count.wrapping_add(count_of(&inside));
            }
        }
        count
    }

    /// By the mask of their coordinates, which are taken from their keys first.
    pub fn gathered_masks(&self, rounds: u32) -> u64 {
        let mut count = 0u64;
        let (mut xs, mut ys, mut offsets) = ([0; POINTS], [0; POINTS], [0; POINTS]);
        let mut inside = [false; POINTS];
        for round in 0..rounds {
            let left = round % TURNS * STEP;
            for place in 0..POINTS {
                let address = self.addresses[place];
                xs[place] = gather(address);
                ys[place] = gather(address >> 1);
                offsets[place] = gather(address >> 2);
            }
            if let Some(zbox) = ZBox::new(left, left + WIDTH, 0, WIDTH, 0, SPAN) {
                in_box_mask(&xs, &ys, &offsets, &zbox, &mut inside);
                count = count.wrapping_add(count_of(&inside));
            }
        }
        count
    }

    /// By their keys as they stand.
    pub fn key_tests(&self, rounds: u32) -> u64 {
        let mut count = 0u64;
        let mut inside = [false; POINTS];
        let (width, span) = (u64::from(WIDTH), u64::from(SPAN));
        for round in 0..rounds {
            let left = u64::from(round % TURNS * STEP);
            if let Ok(query) = Query::new(left, left + width, 0, width, 0, span) {
                let test = KeyTest::new(&query, Period::Week);
                for place in 0..POINTS {
                    if let Some(key) = Key::new(0, self.addresses[place], Period::Week) {
                        inside[place] = test.has_key(key);
                    }
                }
                count = count.wrapping_add(count_of(&inside));
            }
        }
        count
    }

    /// By two numbers of 32 bits each.
    pub fn marks(&self, rounds: u32) -> u64 {
        let mut count = 0u64;
        let mut inside = [false; POINTS];
        for round in 0..rounds {
            let left = round % TURNS * STEP;
            for place in 0..POINTS {
                let (low, high) = (self.lows[place], self.highs[place]);
                let x = low & 0x1f_ffff;
                let y = low >> 21 | (high & 0x3ff) << 11;
                inside[place] = (x.wrapping_sub(left) <= WIDTH)
                    & (y <= WIDTH)
                    & (high >> 10 <= SPAN);
            }
            count = count.wrapping_add(count_of(&inside));
        }
        count
    }
}
