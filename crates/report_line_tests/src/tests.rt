// Examples of the lines, each with the bytes that its rule gives.
use report_lines::report_line;
use scheme::{Reach, Table};
use std::alloc::Global;
use std::process::Abort;
use std::test::Fail;

// What stands in a table before a line is put there.
const BEFORE: u8 = 170;

// Rows with flows are written out here as in the tests of `scheme`, which lie below any crate that could share them.
fn reach(tail: u16, head: u16, limit: u32, flow: u32) -> Reach {
    Reach {
        tail,
        head,
        limit,
        flow,
    }
}

// The reaches 0→1, 0→2, 1→2, 1→3 and 2→3 with a flow of value 8.
fn example(heap: Global) -> Result<Table, Fail> {
    let rows = [
        reach(0, 1, 5, 4),
        reach(0, 2, 4, 4),
        reach(1, 2, 3, 2),
        reach(1, 3, 2, 2),
        reach(2, 3, 6, 6),
    ];
    Ok(Table::new(4, 0, 3, rows.to_vec(heap)?))
}

const SIDE: [u8; 4] = [1, 1, 1, 0];

// The line has these bytes, which stand at the start of the table, and every other byte is as it was.
fn gives(rt: &impl Abort, register: &Table, marks: &[u8], rounds: u64, line: usize, text: &str) {
    let mut table = [BEFORE; 4096];
    let length = report_line(register, marks, rounds, line, &mut table);
    let (told, rest) = table.split_at(length);
    assert_eq!(rt; length, text.len());
    assert_eq!(rt; told, text.as_bytes());
    assert!(rt; rest.iter().all(|byte| *byte == BEFORE));
}

// No line has a byte.
fn gives_none(rt: &impl Abort, register: &Table, marks: &[u8], rounds: u64) {
    for line in 0..10 {
        gives(rt, register, marks, rounds, line, "");
    }
}

#[test]
fn the_page_of_the_example(rt: HostRuntime) -> Result<(), Fail> {
    let register = example(rt.alloc())?;
    let page = [
        "points 4\n",
        "reaches 5\n",
        "value 8\n",
        "rounds 2\n",
        "side 0 1 2\n",
        "flow 0 4\n",
        "flow 1 4\n",
        "flow 2 2\n",
        "flow 3 2\n",
        "flow 4 6\n",
    ];
    for (line, text) in page.iter().enumerate() {
        gives(&rt, &register, &SIDE, 2, line, text);
    }
    Ok(())
}

#[test]
fn past_the_last_line_there_is_none(rt: HostRuntime) -> Result<(), Fail> {
    let register = example(rt.alloc())?;
    for line in [10, 11, usize::MAX] {
        gives(&rt, &register, &SIDE, 2, line, "");
    }
    Ok(())
}

#[test]
fn numbers_of_many_digits(rt: HostRuntime) -> Result<(), Fail> {
    let heap = rt.alloc();
    let register = example(heap)?;
    for (rounds, text) in [
        (0, "rounds 0\n"),
        (9, "rounds 9\n"),
        (10, "rounds 10\n"),
        (1_000_000, "rounds 1000000\n"),
        (u64::MAX, "rounds 18446744073709551615\n"),
    ] {
        gives(&rt, &register, &SIDE, rounds, 3, text);
    }
    let rows = vec![in heap; reach(0, 1, 0, u32::MAX); 8_192]?;
    let full = Table::new(512, 0, 1, rows);
    let mut marks = [0; 512];
    marks[0] = 1;
    gives(&rt, &full, &marks, 0, 0, "points 512\n");
    gives(&rt, &full, &marks, 0, 1, "reaches 8192\n");
    gives(&rt, &full, &marks, 0, 2, "value 35184372080640\n");
    gives(&rt, &full, &marks, 0, 8_196, "flow 8191 4294967295\n");
    gives(&rt, &full, &marks, 0, 8_197, "");
    Ok(())
}

#[test]
fn a_value_below_zero(rt: HostRuntime) -> Result<(), Fail> {
    let heap = rt.alloc();
    let back = Table::new(2, 0, 1, [reach(1, 0, 5, 5)].to_vec(heap)?);
    gives(&rt, &back, &[1, 0], 0, 2, "value -5\n");
    gives(&rt, &back, &[1, 0], 0, 4, "side 0\n");
    let rows = vec![in heap; reach(1, 0, 0, u32::MAX); 8_192]?;
    let most = Table::new(2, 0, 1, rows);
    gives(&rt, &most, &[1, 0], 0, 2, "value -35184372080640\n");
    let dry = Table::new(2, 0, 1, vec![in heap]?);
    gives(&rt, &dry, &[1, 0], 0, 1, "reaches 0\n");
    gives(&rt, &dry, &[1, 0], 0, 2, "value 0\n");
    gives(&rt, &dry, &[1, 0], 0, 5, "");
    Ok(())
}

// Questions 7 to 9 are not asked: the ends are no points, and the flow is over its limit.
#[test]
fn reaches_are_not_asked(rt: HostRuntime) -> Result<(), Fail> {
    let rows = [reach(7, 7, 2_000_000, 3), reach(0, 9, 1, 2)];
    let loose = Table::new(2, 0, 1, rows.to_vec(rt.alloc())?);
    gives(&rt, &loose, &[1, 0], 1, 2, "value 2\n");
    gives(&rt, &loose, &[1, 0], 1, 5, "flow 0 3\n");
    gives(&rt, &loose, &[1, 0], 1, 6, "flow 1 2\n");
    Ok(())
}

// The marked points are 10 of one digit, 90 of two and 411 of three, each after a space.
#[test]
fn all_points_but_the_outlet(rt: HostRuntime) -> Result<(), Fail> {
    let heap = rt.alloc();
    let wide = Table::new(512, 0, 511, vec![in heap]?);
    let mut marks = [1; 512];
    marks[511] = 0;
    let mut side = String::from_str(heap, "side")?;
    for point in 0..511 {
        write!(side, " {point}")?;
    }
    side.push_str("\n")?;
    assert_eq!(rt; side.len(), 4 + 10 * 2 + 90 * 3 + 411 * 4 + 1);
    gives(&rt, &wide, &marks, 0, 4, side.as_str());
    // the side is told from the other end too, where the inlet is the last point
    let turned = Table::new(512, 511, 0, vec![in heap]?);
    let mut last = [0; 512];
    last[511] = 1;
    last[99] = 1;
    last[100] = 1;
    gives(&rt, &turned, &last, 0, 4, "side 99 100 511\n");
    Ok(())
}

#[test]
fn a_shape_that_is_not_allowed(rt: HostRuntime) -> Result<(), Fail> {
    let heap = rt.alloc();
    gives_none(&rt, &Table::new(1, 0, 1, vec![in heap]?), &[1], 0);
    for (inlet, outlet) in [(2, 2), (0, 4), (4, 3)] {
        let register = Table::new(4, inlet, outlet, vec![in heap]?);
        gives_none(&rt, &register, &SIDE, 0);
    }
    let rows = vec![in heap; reach(0, 1, 1, 0); 8_193]?;
    gives_none(&rt, &Table::new(4, 0, 3, rows), &SIDE, 0);
    let mut marks = [0; 513];
    marks[0] = 1;
    gives_none(&rt, &Table::new(513, 0, 1, vec![in heap]?), &marks, 0);
    Ok(())
}

#[test]
fn marks_that_are_no_side(rt: HostRuntime) -> Result<(), Fail> {
    let register = example(rt.alloc())?;
    let short: &[u8] = &[1, 1, 1];
    for marks in [
        &[],
        short,
        &[1, 1, 1, 0, 0],
        &[1, 2, 1, 0],
        &[0, 1, 1, 0],
        &[1, 1, 1, 1],
    ] {
        gives_none(&rt, &register, marks, 2);
    }
    Ok(())
}
