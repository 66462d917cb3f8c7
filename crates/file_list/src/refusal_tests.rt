// Files built record by record: what each is refused with, and where.
use scheme::{Layer, Refusal};
use scheme_file::SchemeFile;
use std::alloc::{AllocError, Global};
use std::process::Abort;
use std::test::Fail;
use worked_examples::EXAMPLE_FILE;

// A record that says so of its length and its kind, with a body of so many bytes.
#[derive(Clone, Copy)]
struct Piece {
    says: u32,
    kind: u16,
    body: usize,
}

const fn rec(says: u32, kind: u16, body: usize) -> Piece {
    Piece { says, kind, body }
}

// Pieces that are a file, and how it is refused.
#[derive(Drop)]
struct Case<'a> {
    pieces: &'a [Piece],
    refusal: Option<Refusal>,
}

fn taken(pieces: &[Piece]) -> Case<'_> {
    Case {
        pieces,
        refusal: None,
    }
}

fn refused(pieces: &[Piece], number: u16, place: usize) -> Case<'_> {
    Case {
        pieces,
        refusal: Some(refusal(number, place)),
    }
}

// A file's refusal; the tests of each crate make those of its own layer.
fn refusal(number: u16, place: usize) -> Refusal {
    Refusal {
        layer: Layer::File,
        number,
        place,
    }
}

fn put_piece(file: &mut Vec<u8>, piece: &Piece) -> Result<(), AllocError> {
    file.extend_from_slice(&piece.says.to_le_bytes())?;
    file.extend_from_slice(&piece.kind.to_le_bytes())?;
    file.resize(file.len().saturating_add(piece.body), 7)
}

fn told(bytes: &mut [u8]) -> Option<Refusal> {
    SchemeFile::open(bytes).err().map(Refusal::from)
}

fn check_case(rt: &impl Abort, heap: Global, case: &Case<'_>) -> Result<(), Fail> {
    let mut file = Vec::new(heap);
    for piece in case.pieces {
        put_piece(&mut file, piece)?;
    }
    assert_eq!(rt; told(&mut file), case.refusal);
    Ok(())
}

fn check_cases(rt: &impl Abort, heap: Global, cases: &[Case<'_>]) -> Result<(), Fail> {
    for case in cases {
        check_case(rt, heap, case)?;
    }
    Ok(())
}

const HEAD: Piece = Piece {
    says: 6,
    kind: 1,
    body: 6,
};

const NO_ROWS: Piece = Piece {
    says: 0,
    kind: 2,
    body: 0,
};

#[test]
fn asks_the_length(rt: HostRuntime) -> Result<(), Fail> {
    check_cases(
        &rt,
        rt.alloc(),
        &[
            taken(&[HEAD, NO_ROWS, rec(65512, 3, 65512)]),
            refused(&[HEAD, NO_ROWS, rec(65513, 3, 65513)], 1, 0),
            refused(&[rec(65532, 9, 65532)], 1, 0),
        ],
    )
}

#[test]
fn asks_whether_a_record_lies_inside(rt: HostRuntime) -> Result<(), Fail> {
    check_cases(
        &rt,
        rt.alloc(),
        &[
            taken(&[HEAD, NO_ROWS, rec(4, 3, 4)]),
            refused(&[HEAD, NO_ROWS, rec(5, 3, 4)], 2, 18),
            refused(&[HEAD, NO_ROWS, rec(4294967295, 3, 4)], 2, 18),
            refused(&[HEAD, NO_ROWS, rec(4294967272, 3, 4)], 2, 18),
            refused(&[HEAD, rec(9, 9, 3)], 2, 12),
        ],
    )
}

// The example, cut.
#[test]
fn asks_it_of_a_record_that_is_cut(rt: HostRuntime) -> Result<(), Fail> {
    for (length, place) in [
        (77, 12),
        (18, 12),
        (17, 12),
        (13, 12),
        (11, 0),
        (6, 0),
        (5, 0),
        (1, 0),
    ] {
        let mut file = Vec::from_slice(rt.alloc(), EXAMPLE_FILE)?;
        file.truncate(length);
        assert_eq!(rt; told(&mut file), Some(refusal(2, place)));
    }
    Ok(())
}

#[test]
fn asks_the_kind(rt: HostRuntime) -> Result<(), Fail> {
    check_cases(
        &rt,
        rt.alloc(),
        &[
            taken(&[HEAD, NO_ROWS, rec(0, 3, 0)]),
            refused(&[HEAD, NO_ROWS, rec(0, 0, 0)], 3, 18),
            refused(&[HEAD, NO_ROWS, rec(0, 4, 0)], 3, 18),
            refused(&[HEAD, NO_ROWS, rec(0, 65535, 0)], 3, 18),
            refused(&[rec(6, 4, 6), NO_ROWS], 3, 0),
        ],
    )
}

#[test]
fn asks_for_one_head_at_the_start(rt: HostRuntime) -> Result<(), Fail> {
    check_cases(
        &rt,
        rt.alloc(),
        &[
            refused(&[rec(5, 1, 5), NO_ROWS], 4, 0),
            taken(&[HEAD, NO_ROWS]),
            refused(&[rec(7, 1, 7), NO_ROWS], 4, 0),
            refused(&[NO_ROWS, HEAD], 4, 0),
            refused(&[rec(0, 3, 0), HEAD, NO_ROWS], 4, 0),
            refused(&[HEAD, HEAD, NO_ROWS], 4, 12),
            refused(&[HEAD, NO_ROWS, HEAD], 4, 18),
        ],
    )?;
    assert_eq!(rt; told(&mut []), Some(refusal(4, 0)));
    Ok(())
}

#[test]
fn asks_for_one_block_of_whole_rows(rt: HostRuntime) -> Result<(), Fail> {
    check_cases(
        &rt,
        rt.alloc(),
        &[
            refused(&[HEAD, rec(11, 2, 11)], 5, 12),
            taken(&[HEAD, rec(12, 2, 12)]),
            refused(&[HEAD, rec(13, 2, 13)], 5, 12),
            taken(&[HEAD, rec(49152, 2, 49152)]),
            refused(&[HEAD, rec(49164, 2, 49164)], 5, 12),
            refused(&[HEAD, rec(12, 2, 12), NO_ROWS], 5, 30),
            refused(&[HEAD], 5, 12),
            refused(&[HEAD, rec(3, 3, 3)], 5, 21),
        ],
    )
}

#[test]
fn takes_notes_anywhere_behind_the_head(rt: HostRuntime) -> Result<(), Fail> {
    check_cases(
        &rt,
        rt.alloc(),
        &[
            taken(&[HEAD, rec(3, 3, 3), NO_ROWS]),
            taken(&[HEAD, NO_ROWS, rec(3, 3, 3)]),
        ],
    )
}
