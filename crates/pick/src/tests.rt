// What every pick of size 512 does, whatever its kind.
use crate::Either;
use crate::heaps::Heap;
use crate::picks::Pick;
use crate::scans::Scan;
use scheme::{Layer, Refusal};
use std::process::Abort;
use std::test::Fail;

#[test]
fn scan(rt: HostRuntime) -> Result<(), Fail> {
    trials(&rt, &mut Scan::new())
}

#[test]
fn heap(rt: HostRuntime) -> Result<(), Fail> {
    trials(&rt, &mut Heap::new())
}

// One list holds picks of both kinds.
#[test]
fn either_of_two_kinds(rt: HostRuntime) -> Result<(), Fail> {
    let mut picks: [Either<Scan, Either<Heap, Scan>>; 3] = [
        Either::Left(Scan::new()),
        Either::Right(Either::Left(Heap::new())),
        Either::Right(Either::Right(Scan::new())),
    ];
    for pick in picks.iter_mut() {
        trials(&rt, pick)?;
    }
    Ok(())
}

// A call, and what it must answer: the number of its refusal, if it is refused, or what is taken, if there is anything.
#[derive(Clone, Copy)]
enum Step {
    Start(u16, Option<u16>),
    Raise(u16, u64, Option<u16>),
    Take(Option<(u16, u64)>),
}

fn refusal(number: u16, place: usize) -> Refusal {
    Refusal {
        layer: Layer::Pick,
        number,
        place,
    }
}

// Makes the calls of one trial, which is data, so which call comes is asked here. A wrong answer ends the test and names the
// trial.
fn walk<P: Pick>(rt: &impl Abort, pick: &mut P, trial: &str, steps: &[Step]) {
    for step in steps {
        match *step {
            Step::Start(points, refused) => assert_eq!(rt;
                pick.start(points).err().map(Refusal::from),
                refused.map(|number| refusal(number, 0)),
                "{trial}"
            ),
            Step::Raise(point, by, refused) => assert_eq!(rt;
                pick.raise(point, by).err().map(Refusal::from),
                refused.map(|number| refusal(number, usize::from(point))),
                "{trial}"
            ),
            Step::Take(taken) => assert_eq!(rt; pick.take(), taken, "{trial}"),
        }
    }
}

const FRESH_AND_EMPTIED: [Step; 7] = [
    Step::Take(None),
    Step::Raise(0, 1, Some(17)),
    Step::Start(1, None),
    Step::Take(Some((0, 0))),
    Step::Take(None),
    Step::Start(0, None),
    Step::Take(None),
];

const SIZES: [Step; 5] = [
    Step::Start(512, None),
    Step::Raise(511, 3, None),
    Step::Start(513, Some(10)),
    Step::Start(65_535, Some(10)),
    Step::Take(Some((511, 3))),
];

const INSIDE_POINTS: [Step; 7] = [
    Step::Start(3, None),
    Step::Raise(1, 5, None),
    Step::Take(Some((1, 5))),
    Step::Raise(1, 1, Some(17)),
    Step::Raise(3, 0, Some(17)),
    Step::Raise(4, u64::MAX, Some(17)),
    Step::Raise(65_535, 1, Some(17)),
];

const KEY_LIMIT: [Step; 8] = [
    Step::Start(1, None),
    Step::Raise(0, 1_099_511_627_777, Some(18)),
    Step::Raise(0, u64::MAX, Some(18)),
    Step::Raise(0, 1_099_511_627_776, None),
    Step::Raise(0, 0, None),
    Step::Raise(0, 1, Some(18)),
    Step::Raise(0, u64::MAX, Some(18)),
    Step::Take(Some((0, 1_099_511_627_776))),
];

const KEY_LIMIT_IN_STEPS: [Step; 6] = [
    Step::Start(2, None),
    Step::Raise(1, 1_099_511_627_775, None),
    Step::Raise(1, 2, Some(18)),
    Step::Raise(1, 1, None),
    Step::Raise(1, 1, Some(18)),
    Step::Take(Some((1, 1_099_511_627_776))),
];

const RESTART: [Step; 6] = [
    Step::Start(3, None),
    Step::Raise(0, 4, None),
    Step::Raise(2, 9, None),
    Step::Start(1, None),
    Step::Take(Some((0, 0))),
    Step::Take(None),
];

const TIE: [Step; 4] = [
    Step::Start(3, None),
    Step::Raise(0, 7, None),
    Step::Raise(1, 6, None),
    Step::Raise(2, 7, None),
];

// Either of two equal points may come first; then the other comes.
fn tie<P: Pick>(rt: &impl Abort, pick: &mut P) -> Result<(), Fail> {
    walk(rt, pick, "tie", &TIE);
    let (first, key) = pick.take().ok_or("nothing first")?;
    assert_eq!(rt; key, 7, "tie");
    assert!(rt; first == 0 || first == 2, "tie");
    let other = if first == 0 { 2 } else { 0 };
    walk(
        rt,
        pick,
        "tie",
        &[Step::Take(Some((other, 7))), Step::Take(Some((1, 6)))],
    );
    Ok(())
}

// Of equal keys the scan takes the smallest number first. The interface does not promise it.
#[test]
fn scan_takes_the_smallest_of_equal_points(rt: HostRuntime) -> Result<(), Fail> {
    let mut pick = Scan::new();
    walk(&rt, &mut pick, "smallest first", &TIE);
    let taken = [
        Step::Take(Some((0, 7))),
        Step::Take(Some((2, 7))),
        Step::Take(Some((1, 6))),
        Step::Take(None),
    ];
    walk(&rt, &mut pick, "smallest first", &taken);
    Ok(())
}

// All trials, on a fresh pick.
fn trials<P: Pick>(rt: &impl Abort, pick: &mut P) -> Result<(), Fail> {
    walk(rt, pick, "fresh and emptied", &FRESH_AND_EMPTIED);
    walk(rt, pick, "sizes", &SIZES);
    walk(rt, pick, "inside points", &INSIDE_POINTS);
    walk(rt, pick, "key limit", &KEY_LIMIT);
    walk(rt, pick, "key limit in steps", &KEY_LIMIT_IN_STEPS);
    walk(rt, pick, "restart", &RESTART);
    tie(rt, pick)
}
