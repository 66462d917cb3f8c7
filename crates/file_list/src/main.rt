// Prints scheme files: each record with its place, and then the register that the file is, or how it is refused.
#![tactic(auto)]

use scheme::{Reach, Refusal, Register, reach_of};
use scheme_file::{Part, Parts, SchemeFile};
use std::{env, fs, io};

#[cfg(test)]
mod book_tests;
#[cfg(test)]
mod clearing_tests;
#[cfg(test)]
mod examples;
#[cfg(test)]
mod refusal_tests;
#[cfg(test)]
mod view_tests;
#[cfg(test)]
mod walking_tests;

fn print_part(rt: &HostRuntime, part: &Part<'_>) -> io::Result<()> {
    let place = part.place();
    let size = part.size();
    match part {
        Part::Head { .. } => println!(rt; "head at {place}"),
        Part::Rows { .. } => println!(rt; "rows at {place}, {size} bytes"),
        Part::Note { .. } => println!(rt; "note at {place}, {size} bytes"),
    }
}

fn print_parts(rt: &HostRuntime, bytes: &[u8]) -> io::Result<()> {
    for part in Parts::new(bytes).map_while(Result::ok) {
        print_part(rt, &part)?;
    }
    Ok(())
}

fn print_register(rt: &HostRuntime, file: &impl Register) -> io::Result<()> {
    let points = file.points();
    let inlet = file.inlet();
    let outlet = file.outlet();
    println!(rt; "points {points} inlet {inlet} outlet {outlet}")?;
    for reach in (0..file.reaches()).filter_map(|reach| reach_of(file, reach)) {
        let Reach {
            tail,
            head,
            limit,
            flow,
        } = reach;
        println!(rt; "{tail} {head} {limit} {flow}")?;
    }
    Ok(())
}

fn print_file(rt: &HostRuntime, name: &str) -> io::Result<()> {
    let mut bytes = fs::read(rt, name)?;
    println!(rt; "{name}")?;
    print_parts(rt, &bytes)?;
    match SchemeFile::open(&mut bytes) {
        Ok(file) => print_register(rt, &file),
        Err(fault) => rt.println(Refusal::from(fault)),
    }
}

fn main(rt: HostRuntime) -> io::Result<()> {
    for name in env::args(&rt)?.skip(1) {
        print_file(&rt, name.as_str())?;
    }
    Ok(())
}
