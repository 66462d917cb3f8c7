// A table and a file of the same scheme, and layers over either, all pass the same tests.
use crate::books::{Want, reads_as, takes_writes};
use layers::{Junction, Turned};
use scheme::Book;
use scheme_file::SchemeFile;
use std::process::Abort;
use std::test::Fail;
use worked_examples::{EXAMPLE, EXAMPLE_FILE, GATE_LIMITS, example};

const PLAIN: Want<'static> = Want {
    points: 4,
    inlet: 0,
    outlet: 3,
    reaches: &EXAMPLE,
};

const TURNED: Want<'static> = Want {
    points: 4,
    inlet: 3,
    outlet: 0,
    reaches: &[(1, 0, 5), (2, 0, 4), (2, 1, 3), (3, 1, 2), (3, 2, 6)],
};

// Written out by hand: the reaches below leave from u + 4, and the gates stand behind them.
const SPLIT: Want<'static> = Want {
    points: 8,
    inlet: 0,
    outlet: 7,
    reaches: &[
        (4, 1, 5),
        (4, 2, 4),
        (5, 2, 3),
        (5, 3, 2),
        (6, 3, 6),
        (0, 4, 9),
        (1, 5, 9),
        (2, 6, 5),
        (3, 7, 9),
    ],
};

// The same of the turned scheme, turned again.
const PILED: Want<'static> = Want {
    points: 8,
    inlet: 4,
    outlet: 3,
    reaches: &[
        (0, 5, 5),
        (0, 6, 4),
        (1, 6, 3),
        (1, 7, 2),
        (2, 7, 6),
        (4, 0, 9),
        (5, 1, 9),
        (6, 2, 5),
        (7, 3, 9),
    ],
};

fn turned_is_a_book<B: Book + Drop>(rt: &impl Abort, below: B) -> Result<(), Fail> {
    takes_writes(rt, &mut Turned::new(below), &TURNED)
}

fn junction_is_a_book<B: Book + Drop>(rt: &impl Abort, below: B) -> Result<(), Fail> {
    takes_writes(rt, &mut Junction::new(below, &GATE_LIMITS), &SPLIT)
}

fn pile_is_a_book<B: Book + Drop>(rt: &impl Abort, below: B) -> Result<(), Fail> {
    let mut pile = Turned::new(Junction::new(Turned::new(below), &GATE_LIMITS));
    takes_writes(rt, &mut pile, &PILED)
}

#[test]
fn over_a_table(rt: HostRuntime) -> Result<(), Fail> {
    takes_writes(&rt, &mut example(rt.alloc())?, &PLAIN)?;
    turned_is_a_book(&rt, example(rt.alloc())?)?;
    junction_is_a_book(&rt, example(rt.alloc())?)?;
    pile_is_a_book(&rt, example(rt.alloc())?)
}

#[test]
fn over_a_file(rt: HostRuntime) -> Result<(), Fail> {
    let mut bytes = *EXAMPLE_FILE;
    takes_writes(&rt, &mut SchemeFile::open(&mut bytes)?, &PLAIN)?;
    turned_is_a_book(&rt, SchemeFile::open(&mut bytes)?)?;
    junction_is_a_book(&rt, SchemeFile::open(&mut bytes)?)?;
    pile_is_a_book(&rt, SchemeFile::open(&mut bytes)?)
}

#[test]
fn the_register_below_comes_back(rt: HostRuntime) -> Result<(), Fail> {
    let pile = Junction::new(Turned::new(example(rt.alloc())?), &[]);
    reads_as(&rt, pile.below().below(), &PLAIN);
    reads_as(&rt, &pile.into_below().into_below(), &PLAIN);
    Ok(())
}
