// Examples of the questions and of the review, each with the answer that its rule gives.
use crate::*;
use std::alloc::Global;
use std::test::Fail;

fn reach(tail: u16, head: u16, limit: u32, flow: u32) -> Reach {
    Reach {
        tail,
        head,
        limit,
        flow,
    }
}

fn told<F: Drop>(answer: Result<(), F>) -> Option<Refusal>
where
    Refusal: From<F>,
{
    answer.err().map(Refusal::from)
}

fn refused(layer: Layer, number: u16, place: usize) -> Option<Refusal> {
    Some(Refusal {
        layer,
        number,
        place,
    })
}

fn table(heap: Global, points: u16, rows: &[Reach]) -> Result<Table, Fail> {
    Ok(Table::new(points, 0, 1, rows.to_vec(heap)?))
}

// The published flow of value 9: the reaches 0→1, 0→2, 1→2, 1→3 and 2→3.
fn published(heap: Global) -> Result<Table, Fail> {
    let rows = [
        reach(0, 1, 5, 5),
        reach(0, 2, 4, 4),
        reach(1, 2, 3, 3),
        reach(1, 3, 2, 2),
        reach(2, 3, 7, 7),
    ];
    Ok(Table::new(4, 0, 3, rows.to_vec(heap)?))
}

#[test]
fn three_sides_are_tight_and_one_is_not(rt: HostRuntime) -> Result<(), Fail> {
    let book = published(rt.alloc())?;
    assert_eq!(rt; value_of(&book), Ok(9));
    for marks in [[1, 0, 0, 0], [1, 1, 0, 0], [1, 1, 1, 0]] {
        assert_eq!(rt; told(check(&book, &marks)), None);
    }
    assert_eq!(rt;
        told(check(&book, &[1, 0, 1, 0])),
        refused(Layer::Call, 16, 0)
    );
    Ok(())
}

#[test]
fn lists_that_are_no_side(rt: HostRuntime) -> Result<(), Fail> {
    let book = published(rt.alloc())?;
    let short: &[u8] = &[1, 1, 1];
    for marks in [
        &[],
        short,
        &[1, 1, 1, 0, 0],
        &[1, 2, 1, 0],
        &[255, 1, 1, 0],
        &[0, 1, 1, 0],
        &[1, 1, 1, 1],
    ] {
        assert_eq!(rt; told(check(&book, marks)), refused(Layer::Call, 15, 0));
    }
    Ok(())
}

#[test]
fn water_into_the_inlet(rt: HostRuntime) -> Result<(), Fail> {
    let book = table(rt.alloc(), 2, &[reach(1, 0, 5, 5)])?;
    assert_eq!(rt; value_of(&book), Ok(-5));
    assert_eq!(rt; told(check(&book, &[1, 0])), refused(Layer::Call, 16, 0));
    Ok(())
}

#[test]
fn shapes_at_their_bounds(rt: HostRuntime) -> Result<(), Fail> {
    let heap = rt.alloc();
    let cases = [
        (512, 0, 1, 8192, None),
        (512, 0, 1, 8193, refused(Layer::Book, 6, 0)),
        (513, 0, 1, 0, refused(Layer::Book, 6, 0)),
        (1, 0, 1, 0, refused(Layer::Book, 6, 0)),
        (4, 2, 2, 0, refused(Layer::Book, 6, 0)),
        (4, 0, 4, 0, refused(Layer::Book, 6, 0)),
        (4, 4, 0, 0, refused(Layer::Book, 6, 0)),
    ];
    for (points, inlet, outlet, count, answer) in cases {
        let rows = vec![in heap; reach(0, 1, 1, 0); count]?;
        assert_eq!(rt;
            told(ask_book(&Table::new(points, inlet, outlet, rows))),
            answer
        );
    }
    Ok(())
}

#[test]
fn the_first_fault_is_told(rt: HostRuntime) -> Result<(), Fail> {
    let heap = rt.alloc();
    let plain = reach(0, 1, 3, 3);
    let cases = [
        ([plain, reach(0, 1, 1_000_000, 1_000_000)], None),
        (
            [plain, reach(0, 1, 1_000_001, 0)],
            refused(Layer::Book, 7, 1),
        ),
        ([plain, reach(0, 4, 3, 0)], refused(Layer::Book, 7, 1)),
        ([plain, reach(4, 1, 3, 0)], refused(Layer::Book, 7, 1)),
        ([plain, reach(1, 1, 3, 0)], refused(Layer::Book, 7, 1)),
        ([plain, reach(0, 1, 3, 4)], refused(Layer::Book, 8, 1)),
        // reach 0 carries too much, and reach 1 ends nowhere: that is asked of every reach first
        (
            [reach(0, 1, 3, 4), reach(0, 9, 3, 0)],
            refused(Layer::Book, 7, 1),
        ),
        // reach 1 carries too much, and point 2 is out of balance
        (
            [reach(0, 2, 3, 1), reach(0, 1, 3, 4)],
            refused(Layer::Book, 8, 1),
        ),
        // points 2 and 3 are out of balance
        (
            [reach(0, 3, 3, 1), reach(2, 1, 3, 1)],
            refused(Layer::Book, 9, 2),
        ),
    ];
    for (rows, answer) in cases {
        assert_eq!(rt; told(ask_book(&table(heap, 4, &rows)?)), answer);
    }
    Ok(())
}

#[test]
fn writes(rt: HostRuntime) -> Result<(), Fail> {
    let mut book = table(rt.alloc(), 2, &[reach(0, 1, 3, 1), reach(1, 0, 4, 2)])?;
    assert_eq!(rt; book.set_limit(1, u32::MAX), Ok(()));
    assert_eq!(rt; book.set_flow(0, 9), Ok(()));
    assert_eq!(rt; book.set_flow(2, 9), Err(BookFault::NoReach(2)));
    assert_eq!(rt;
        book.set_limit(usize::MAX, 9),
        Err(BookFault::NoReach(usize::MAX))
    );
    assert_eq!(rt; book.limit(2), None);
    let rows = book.into_rows();
    assert_eq!(rt;
        rows.as_slice(),
        [reach(0, 1, 3, 9), reach(1, 0, u32::MAX, 2)].as_slice()
    );
    Ok(())
}

#[test]
fn a_refusal_is_one_line(rt: HostRuntime) -> Result<(), Fail> {
    let fault = CallFault::from(BookFault::from(FileFault::CutShort(12)));
    assert_eq!(rt;
        Refusal::from(fault).line(rt.alloc())?.as_str(),
        "refused file 2 12"
    );
    Ok(())
}
