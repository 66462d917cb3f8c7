// Settles scheme files that were made elsewhere and prints what came of each, in the form in which an independent solver's
// answers are stored: name, points, reaches, value, and the points of the pinch.
#![tactic(auto)]

use anyhow::anyhow;
use claims::side_text;
use pick::Scan;
use scheme::questions::MOST_POINTS;
use scheme::{Book, CallFault};
use scheme_file::{SchemeFile, read};
use solver::answers::{Opened, Settled};
use solver::desks::Desk;
use solver::open;
use std::alloc::Global;
use std::{env, fs};

// tables of this many entries hold every scheme
const MOST: usize = MOST_POINTS as usize;

fn main(rt: HostRuntime) -> anyhow::Result<()> {
    for name in env::args(&rt)?.skip(1) {
        run_file(&rt, name.as_str())?;
    }
    Ok(())
}

fn run_file(rt: &HostRuntime, name: &str) -> anyhow::Result<()> {
    let mut bytes = fs::read(rt, name)?;
    let found = read(bytes.as_slice()).map_err(|_| anyhow!("no scheme file"))?;
    let mut file = SchemeFile::lend(bytes.as_mut_slice(), found);
    let line = outcome(rt.alloc(), &mut file)?;
    println!(rt; "{name} {line}")?;
    Ok(())
}

// What came of a book: its size, the greatest value, and the least side of that capacity.
fn outcome<B: Book>(heap: Global, book: &mut B) -> anyhow::Result<String> {
    let mut desk = Desk {
        order: vec![in heap; 0u16; MOST]?,
        place: vec![in heap; 0u16; MOST]?,
        need: vec![in heap; 0u64; MOST]?,
        marks: Vec::new(heap),
        pick: Scan::new(),
    };
    let Opened { points, reaches } = told(open(book))?;
    let Settled { value, .. } = told(desk.settle(book))?;
    desk.marks = vec![in heap; 0u8; usize::from(points)]?;
    let capacity = told(desk.cut(book))?;
    let side = side_text(heap, desk.marks.as_slice())?;
    // the pinch lets just the value through
    if i64::try_from(capacity) != Ok(value) {
        return Err(anyhow!("the capacity is not the value"));
    }
    Ok(format!(in heap; "points {points} reaches {reaches} value {value} side{side}")?)
}

fn told<X>(answer: Result<X, CallFault>) -> anyhow::Result<X> {
    answer.map_err(|_| anyhow!("refused"))
}
