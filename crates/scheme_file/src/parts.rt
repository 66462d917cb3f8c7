// The records of a file, as parts that borrow it.
ghost use Rattle.std.specs.Prelude.{◌≡◌, ◌+◌, ◌<◌, ◌≤◌, drop, length, option_map, IfOk, if◌then◌else◌, None, MatchOption, nat_lt, true, false};
ghost use Rattle.scheme.specs.Refusals.{file_refusal, refusal_of};
ghost use Rattle.std.specs.List.{between};
ghost use Rattle.scheme_file.specs.Asked.{ask_record, end_at, inside, kind_at, length_at};
ghost use Rattle.scheme_file.specs.Kinds.{kind_number};
ghost use Rattle.scheme_file.specs.Numbers.{two_at};
ghost use Rattle.scheme_file.specs.Parts.{PartAt, end_of_part, head_body, part_kind, part_place, part_size};
ghost use Rattle.scheme_file.specs.Parts.{part_inlet, part_outlet, part_points};

use crate::kinds::Kind;
use crate::numbers::{get_u16, get_u32};
use scheme::FileFault;

// A record is a body length, a kind and the body.
pub(crate) const HEADER: usize = 6;

const KIND: usize = 4;

pub(crate) const HEAD_SIZE: usize = 6;

// Where the inlet and the outlet stand in a head, behind the points.
pub(crate) const INLET: usize = 2;

pub(crate) const OUTLET: usize = 4;

pub(crate) const ROW_SIZE: usize = 12;

const MOST_ROWS: usize = 4096;

// A record with the place of its first byte. Its body is lent out of the file. (Place and body stand in each case, since callers
// match on the cases, and a head's body has its own length. The head, which comes once, stands last: in this order the compiled
// walk over many notes is a third shorter.)
#[derive(Clone, Copy)]
pub enum Part<'a> {
    Rows {
        at: usize,
        body: &'a [u8],
    },
    Note {
        at: usize,
        body: &'a [u8],
    },
    Head {
        at: usize,
        body: &'a [u8; HEAD_SIZE],
    },
}

impl Part<'_> {
    pub fn kind(&self) -> Kind
        ensures { kind_number result ≡ part_kind self.now }
    {
        match self {
            Part::Head { .. } => Kind::Head,
            Part::Rows { .. } => Kind::Rows,
            Part::Note { .. } => Kind::Note,
        }
    }

    // Where its first byte is.
    pub fn place(&self) -> usize
        ensures { result ≡ part_place self.now }
    {
        match self {
            Part::Head { at, .. } | Part::Rows { at, .. } | Part::Note { at, .. } => *at,
        }
    }

    // The length of its body.
    pub fn size(&self) -> usize
        ensures { result ≡ part_size self.now }
    {
        match self {
            Part::Head { .. } => HEAD_SIZE,
            Part::Rows { body, .. } | Part::Note { body, .. } => body.len(),
        }
    }

    // Where the next record begins.
    pub fn end(&self) -> usize
        ensures { result ≡ end_of_part self.now }
    {
        self.place()
            .saturating_add(HEADER)
            .saturating_add(self.size())
    }

    // The numbers of a head; no other part has them.
    pub fn points(&self) -> Option<u16>
        ensures { result ≡ part_points self.now }
    {
        self.number(0)
    }

    pub fn inlet(&self) -> Option<u16>
        ensures { result ≡ part_inlet self.now }
    {
        self.number(INLET)
    }

    pub fn outlet(&self) -> Option<u16>
        ensures { result ≡ part_outlet self.now }
    {
        self.number(OUTLET)
    }

    fn number(&self, offset: usize) -> Option<u16>
        requires { offset < 6 }
        ensures { result ≡ option_map (λ body. two_at body offset) (head_body self.now) }
    {
        match self {
            Part::Head { body, .. } => Some(get_u16(*body, offset)),
            Part::Rows { .. } | Part::Note { .. } => None,
        }
    }
}

// The length and the kind that the record at a place tells. They are read from fixed places behind its first byte: where it is
// known that the header is inside, no byte of it is asked for.
fn size_at(bytes: &[u8], at: usize) -> usize
    requires { at < length bytes.now }
    ensures { result ≡ length_at bytes.now at }
{
    get_u32(&bytes[at..], 0) as usize
}

fn kind_number_at(bytes: &[u8], at: usize) -> u16
    requires { at < length bytes.now }
    ensures { result ≡ kind_at bytes.now at }
{
    get_u16(&bytes[at..], KIND)
}

// What lies behind the header of the record at a place, if the header lies inside the file.
fn behind_header(bytes: &[u8], at: usize) -> Option<&[u8]>
    requires { at < length bytes.now }
    ensures { MatchOption result (length bytes.now < at + 6)
        (λ rest. (at + 6 ≤ length bytes.now) × (rest.now ≡ drop (at + 6) bytes.now)) }
{
    bytes[at..].get(HEADER..)
}

// The body of the record at a place, if the record lies wholly inside the file.
fn body_at(bytes: &[u8], at: usize) -> Option<&[u8]>
    requires { at < length bytes.now }
    ensures { MatchOption result (inside bytes.now at ≡ false)
        (λ body. (inside bytes.now at ≡ true) × (length body.now ≡ length_at bytes.now at)
        × (body.now ≡ between (at + 6) (end_at bytes.now at) bytes.now)) }
{
    behind_header(bytes, at)?.get(..size_at(bytes, at))
}

// The record at a place, or nothing at the file's end. `rows_seen` tells whether a row block came before: a record is asked
// alone, so whoever goes over a file has to say it. (By `let .. else`:
// behind `ok_or(..)?` the check does not see what the call says.)
pub fn part_at(bytes: &[u8], at: usize, rows_seen: bool) -> Result<Option<Part<'_>>, FileFault>
    ensures fault { refusal_of file_refusal result
        ≡ (if nat_lt at (length bytes.now) then ask_record bytes.now at rows_seen else None) }
    ensures found { IfOk result (λ part. MatchOption part (length bytes.now ≤ at)
        (λ p. (at < length bytes.now) × PartAt bytes.now at p)) }
{
    if at >= bytes.len() {
        return Ok(None);
    }
    let Some(body) = body_at(bytes, at) else {
        return Err(FileFault::CutShort(at));
    };
    let Ok(kind) = Kind::try_from(kind_number_at(bytes, at)) else {
        return Err(FileFault::UnknownKind(at));
    };
    match kind {
        Kind::Head if at == 0 => {
            let Some(body) = body.as_array() else {
                return Err(FileFault::BadHead(at));
            };
            Ok(Some(Part::Head { at, body }))
        }
        Kind::Rows if at > 0 => {
            let size = body.len();
            if rows_seen || size % ROW_SIZE != 0 || size / ROW_SIZE > MOST_ROWS {
                return Err(FileFault::BadRows(at));
            }
            Ok(Some(Part::Rows { at, body }))
        }
        Kind::Note if at > 0 => Ok(Some(Part::Note { at, body })),
        Kind::Head | Kind::Rows | Kind::Note => Err(FileFault::BadHead(at)),
    }
}
