// One line of a report.
ghost use Rattle.std.specs.Prelude.{◌≡◌, ◌≤◌, [], length, slice_index_or};
ghost use Rattle.scheme.specs.Bounds.{most_points};
ghost use Rattle.scheme.specs.Scheme.{flow_at};
ghost use Rattle.report_lines.specs.Laid.{written};
ghost use Rattle.report_lines.specs.Lines.{flow_told, lines_of_report, line_bytes};

use crate::lines::{LINE_BYTES, flow_text, number_text, side_text};
use scheme::{Few, Register, is_side_of_shaped};

// Writes a line of a report, counted from 0, at the start of the table, and answers its length. It writes nothing and
// answers 0 past the last line, for a register without the shape that is asked for, and for marks that are no side.
pub fn report_line<R: Register>(
    register: &R,
    marks: &[u8],
    rounds: u64,
    line: usize,
    table: &mut [u8; LINE_BYTES],
) -> usize
    ensures told { result ≡ length (line_bytes (R.scheme register.now) marks.now rounds line) }
    ensures table { table.new
        ≡ written (line_bytes (R.scheme register.now) marks.now rounds line) table.old }
    ensures fits { result ≤ 4096 }
{
    if !is_side_of_shaped(register, marks) {
        return 0;
    }
    put_page_line(&Few { register }, marks, rounds, line, table)
}

// Copies a line to the start of the table, and answers its length.
fn put_line(line: &str, table: &mut [u8; LINE_BYTES]) -> usize
    requires { length line.now ≤ 4096 }
    ensures told { result ≡ length line.now }
    ensures table { table.new ≡ written line.now table.old }
    ensures fits { result ≤ 4096 }
{
    let bytes = line.as_bytes();
    table[..bytes.len()].copy_from_slice(bytes);
    bytes.len()
}

// Writes a line, or nothing past the last. A line is asked for by its place on the page: an enum of the lines would
// only be made from a place by this same match, and then be written by a second one.
fn put_page_line<R: Register>(
    few: &Few<'_, R>,
    marks: &[u8],
    rounds: u64,
    line: usize,
    table: &mut [u8; LINE_BYTES],
) -> usize
    requires { length marks.now ≤ most_points }
    ensures told { result
        ≡ length (slice_index_or (lines_of_report (R.scheme few.now.register.now) marks.now rounds) line []) }
    ensures table { table.new
        ≡ written (slice_index_or (lines_of_report (R.scheme few.now.register.now) marks.now rounds) line [])
        table.old }
    ensures fits { result ≤ 4096 }
{
    let register = few.register;
    match line {
        0 => put_line(number_text("points ", register.points()).as_str(), table),
        1 => put_line(number_text("reaches ", register.reaches()).as_str(), table),
        2 => put_line(number_text("value ", few.value()).as_str(), table),
        3 => put_line(number_text("rounds ", rounds).as_str(), table),
        4 => put_line(side_text(marks).as_str(), table),
        _ => put_reach(register, line - 5, table),
    }
}

// Writes the line of a reach, or nothing where there is no such reach.
fn put_reach<R: Register>(register: &R, reach: usize, table: &mut [u8; LINE_BYTES]) -> usize
    ensures told { result ≡ length (flow_told reach (flow_at (R.scheme register.now) reach)) }
    ensures table { table.new ≡ written (flow_told reach (flow_at (R.scheme register.now) reach)) table.old }
    ensures fits { result ≤ 4096 }
{
    match register.flow(reach) {
        Some(flow) => put_line(flow_text(reach, flow).as_str(), table),
        None => 0,
    }
}
