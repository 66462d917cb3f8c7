// The kinds of records, and the numbers that a file has for them.
ghost use Rattle.std.specs.Prelude.{◌≡◌};
ghost use Rattle.scheme_file.specs.Kinds.{decodes, kind_number};

#[derive(Clone, Copy, PartialEq, Eq, Debug)]
pub enum Kind {
    Head = 1,
    Rows = 2,
    Note = 3,
}

// A number that no kind has.
#[derive(Clone, Copy, PartialEq, Eq, Debug)]
pub struct UnknownKind(pub u16);

impl From<Kind> for u16 {
    ghost from_gives = { λ kind number. number ≡ kind_number kind };

    fn from(kind: Kind) -> u16 {
        kind as u16
    }
}

// The numbers once more, since a pattern is no cast.
impl TryFrom<u16> for Kind {
    type Error = UnknownKind;

    ghost try_from_gives = { decodes };

    fn try_from(number: u16) -> Result<Kind, UnknownKind> {
        match number {
            1 => Ok(Kind::Head),
            2 => Ok(Kind::Rows),
            3 => Ok(Kind::Note),
            _ => Err(UnknownKind(number)),
        }
    }
}
