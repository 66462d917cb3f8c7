// The lines of a report as text. They are pushed piece by piece, since no clause says that `write!` succeeds where the
// text fits, and a line has no error to tell. So a side is spelled here as well as in the claims, which print by `Display`.
ghost use Rattle.std.specs.Prelude.{◌≡◌, ◌≤◌, ◌++◌, length, codes};
ghost use Rattle.scheme.specs.Bounds.{most_points};
ghost use Rattle.scheme.specs.Words.{side_point};
ghost use Rattle.report_lines.specs.Lines.{side_line, flow_line};

use arrayvec::ArrayString;
use itoa::{Buffer, Integer};

// The bytes of a caller's table: room for the longest line, a side of all points at six bytes each.
pub const LINE_BYTES: usize = 4_096;

// A line of at most two numbers, and the side. Room is cleared before it is used, so only the side has room for all points.
pub(crate) type Line = ArrayString<96>;

pub(crate) type SideLine = ArrayString<LINE_BYTES>;

// A word with its space, a number and a newline.
pub(crate) fn number_text<I: Integer>(word: &str, number: I) -> Line
    requires { length word.now ≤ 8 }
    ensures { result.bytes ≡ word.now ++ (I.text number ++ codes "\n") }
{
    let mut line = Line::new();
    line.push_str(word);
    line.push_str(Buffer::new().format(number));
    line.push_str("\n");
    line
}

pub(crate) fn flow_text(reach: usize, flow: u32) -> Line
    ensures { result.bytes ≡ flow_line reach flow }
{
    let mut line = Line::new();
    let mut digits = Buffer::new();
    line.push_str("flow ");
    line.push_str(digits.format(reach));
    line.push_str(" ");
    line.push_str(digits.format(flow));
    line.push_str("\n");
    line
}

// A point after a space, in at most five digits.
fn point_text(point: u16) -> ArrayString<6>
    ensures { result.bytes ≡ side_point point 1 }
{
    let mut text = ArrayString::new();
    text.push_str(" ");
    text.push_str(Buffer::new().format(point));
    text
}

// The marked points in number order.
pub(crate) fn side_text(marks: &[u8]) -> SideLine
    requires { length marks.now ≤ most_points }
    ensures { result.bytes ≡ side_line marks.now }
{
    let mut line = SideLine::new();
    line.push_str("side");
    for (point, mark) in marks.iter().enumerate() {
        if *mark == 1 {
            line.push_str(point_text(point as u16).as_str());
        }
    }
    line.push_str("\n");
    line
}
