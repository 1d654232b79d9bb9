//! Times keys, jumps, plans and the tests of a page. Without arguments it makes each call once; with a number it makes
//! each call that many times, and prints how long one takes.
#![tactic(auto)]

mod page;
mod rounds;

use page::Page;
use rounds::Rounds;
use std::time::{Duration, Instant};
use std::{env, io};

// The number of rounds asked for, if any.
fn asked(rt: &HostRuntime) -> io::Result<Option<u32>> {
    let mut words = env::args(rt)?;
    let _program = words.next();
    match words.next() {
        Some(word) => Ok(word.as_str().parse().ok()),
        None => Ok(None),
    }
}

// Prints the nanoseconds of one of `count` calls.
fn print(rt: &HostRuntime, name: &str, took: Duration, count: u32, sum: u64) -> io::Result<()> {
    let each = took.as_nanos() / u128::from(count.max(1));
    println!(rt; "{name}: {each} ns ({sum})")
}

// Times each call, and prints how long one takes.
fn time(rt: &HostRuntime, count: u32) -> io::Result<()> {
    let rounds = Rounds::new(count);
    let start = Instant::now(rt)?;
    let sum = rounds.interleaves();
    print(rt, "interleave", start.elapsed(rt)?, count, sum)?;
    let start = Instant::now(rt)?;
    let sum = rounds.jumps();
    print(rt, "jump", start.elapsed(rt)?, count, sum)?;
    let start = Instant::now(rt)?;
    let sum = rounds.first_keys();
    print(rt, "first key", start.elapsed(rt)?, count, sum)?;
    let start = Instant::now(rt)?;
    let sum = rounds.plans(rt.alloc(), 2);
    print(rt, "plan of 16, 2 per cent", start.elapsed(rt)?, count, sum)?;
    let start = Instant::now(rt)?;
    let sum = rounds.plans(rt.alloc(), 14);
    print(
        rt,
        "plan of 16, 14 per cent",
        start.elapsed(rt)?,
        count,
        sum,
    )?;
    let start = Instant::now(rt)?;
    let sum = rounds.worst_plans(rt.alloc());
    print(
        rt,
        "plan of 64, the worst box",
        start.elapsed(rt)?,
        count,
        sum,
    )?;
    time_page(rt, count)
}

// Times the tests of a page of 32 points, each way.
fn time_page(rt: &HostRuntime, count: u32) -> io::Result<()> {
    let page = Page::random();
    let start = Instant::now(rt)?;
    let sum = page.masks(count);
    print(rt, "page by a mask", start.elapsed(rt)?, count, sum)?;
    let start = Instant::now(rt)?;
    let sum = page.gathered_masks(count);
    print(
        rt,
        "page by a mask, from keys",
        start.elapsed(rt)?,
        count,
        sum,
    )?;
    let start = Instant::now(rt)?;
    let sum = page.key_tests(count);
    print(rt, "page by its keys", start.elapsed(rt)?, count, sum)?;
    let start = Instant::now(rt)?;
    let sum = page.marks(count);
    print(rt, "page by its marks", start.elapsed(rt)?, count, sum)
}

fn main(rt: HostRuntime) -> io::Result<()> {
    if let Some(count) = asked(&rt)? {
        return time(&rt, count);
    }
    let once = Rounds::new(1);
    let _ = once.interleaves() ^ once.jumps() ^ once.first_keys();
    let _ = once.plans(rt.alloc(), 2) ^ once.plans(rt.alloc(), 14);
    println!(rt; "ranges of the worst box: {}", once.worst_plans(rt.alloc()))
}
