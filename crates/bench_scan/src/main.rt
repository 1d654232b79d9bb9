//! Times puts, counts, grids, pages and deletes of a table over the UB-tree: `bench_scan POINTS BOXES`, two files as
//! `bench/scan_data.py` writes them. For each box a line goes to standard output, with its class and the rows that a count and a grid
//! show, and a line to standard error, with its class and what they take, in nanoseconds; then, for each box again, lines that say
//! the same of a page.
#![tactic(auto)]

mod boxes;
mod rows;
mod times;

use boxes::{Asked, box_in};
use std::{env, fs, io};
use times::Bench;

// The kilobytes of memory that the process has held at most, by the line `VmHWM` of Linux's `status`.
fn most_memory(rt: &HostRuntime) -> io::Result<u64> {
    let text = fs::read_to_string(rt, "/proc/self/status")?;
    for line in text.as_str().lines() {
        if line.starts_with("VmHWM:") {
            return Ok(rows::number_of(line.split_whitespace().nth(1)));
        }
    }
    Ok(0)
}

// Fills a table with the points of a text, and prints how many nanoseconds a put takes, and how many bytes a row.
fn fill(rt: &HostRuntime, bench: &mut Bench, points: &str) -> io::Result<()> {
    let count = (points.lines().count() as u64).max(1);
    let before = most_memory(rt)?;
    let nanoseconds = bench.fill(rt, points)?;
    let held = most_memory(rt)?.saturating_sub(before).saturating_mul(1024);
    eprintln!(rt; "put {} {}", nanoseconds / count, held / count)
}

// Takes the points of a text out of a table, and prints how many nanoseconds one takes.
fn empty(rt: &HostRuntime, bench: &mut Bench, points: &str) -> io::Result<()> {
    let count = (points.lines().count() as u64).max(1);
    let nanoseconds = bench.empty(rt, points)?;
    eprintln!(rt; "delete {}", nanoseconds / count)
}

// Prints what a count and a grid of a box show and take.
fn print_sums(rt: &HostRuntime, bench: &Bench, asked: &Asked<'_>) -> io::Result<()> {
    let count = bench.count(rt, &asked.query)?;
    let grid = bench.grid(rt, &asked.query)?;
    let class = asked.class;
    println!(rt; "{class} {} {}", count.rows, grid.rows)?;
    eprintln!(rt; "{class} {} {}", count.nanoseconds, grid.nanoseconds)
}

// Prints what a page of a box shows and takes.
fn print_page(rt: &HostRuntime, bench: &Bench, asked: &Asked<'_>) -> io::Result<()> {
    let page = bench.page(rt, &asked.query)?;
    let class = asked.class;
    println!(rt; "page {class} {}", page.rows)?;
    eprintln!(rt; "page {class} {}", page.nanoseconds)
}

// What the boxes are asked for in turn. A user asks for a page without a count before it, which would fetch into the caches what the
// page reads, so pages have a turn of their own.
#[derive(Clone, Copy)]
enum Turn {
    Sums,
    Pages,
}

// Prints what the boxes of a text's lines are asked for in a turn, and what that takes.
fn print_turn(rt: &HostRuntime, bench: &Bench, boxes: &str, turn: Turn) -> io::Result<()> {
    for line in boxes.lines() {
        if let Some(asked) = box_in(line) {
            match turn {
                Turn::Sums => print_sums(rt, bench, &asked)?,
                Turn::Pages => print_page(rt, bench, &asked)?,
            }
        }
    }
    Ok(())
}

// Times a table of the points of a text, and reads of it in the boxes of another.
fn time(rt: &HostRuntime, points: &str, boxes: &str) -> io::Result<()> {
    let mut bench = Bench::new(rt.alloc())?;
    fill(rt, &mut bench, points)?;
    print_turn(rt, &bench, boxes, Turn::Sums)?;
    print_turn(rt, &bench, boxes, Turn::Pages)?;
    empty(rt, &mut bench, points)
}

// Times a table of the points of a file, and reads of it in the boxes of another.
fn time_files(rt: &HostRuntime, points: &str, boxes: &str) -> io::Result<()> {
    let points = fs::read_to_string(rt, points)?;
    let boxes = fs::read_to_string(rt, boxes)?;
    time(rt, points.as_str(), boxes.as_str())
}

fn main(rt: HostRuntime) -> io::Result<()> {
    let mut words = env::args(&rt)?;
    let _program = words.next();
    match (words.next(), words.next()) {
        (Some(points), Some(boxes)) => time_files(&rt, points.as_str(), boxes.as_str()),
        _ => Ok(()),
    }
}
