// What is refused, and how a refusal is told: the layer that found the fault, a number and a place.
ghost use Rattle.std.specs.Prelude.{◌≡◌};
ghost use Rattle.scheme.specs.Refusals.{file_refusal, book_refusal, pick_refusal, call_refusal};
ghost use Rattle.scheme.specs.declared.faults.BookFault.TheVariants.{InFile};
ghost use Rattle.scheme.specs.declared.faults.CallFault.TheVariants.{InBook, InPick};

#[derive(Clone, Copy, PartialEq, Eq, Debug)]
pub enum Layer {
    File,
    Book,
    Call,
    Pick,
}

#[derive(Clone, Copy, PartialEq, Eq, Debug)]
pub struct Refusal {
    pub layer: Layer,
    // what is printed, and known outside
    pub number: u16,
    pub place: usize,
}

// A file that is no scheme file. The place is a byte's.
#[derive(Clone, Copy, PartialEq, Eq, Debug)]
pub enum FileFault {
    TooLong,
    CutShort(usize),
    UnknownKind(usize),
    BadHead(usize),
    BadRows(usize),
}

// Each layer has numbers of its own, so each kind of fault has a conversion of its own.
impl From<FileFault> for Refusal {
    ghost from_gives = { λ fault r. r ≡ file_refusal fault };

    fn from(fault: FileFault) -> Refusal
        ensures told { result ≡ file_refusal fault }
        ensures alone { (other : FileFault) → file_refusal other ≡ result → other ≡ fault }
    {
        let (number, place) = match fault {
            FileFault::TooLong => (1, 0),
            FileFault::CutShort(at) => (2, at),
            FileFault::UnknownKind(at) => (3, at),
            FileFault::BadHead(at) => (4, at),
            FileFault::BadRows(at) => (5, at),
        };
        Refusal {
            layer: Layer::File,
            number,
            place,
        }
    }
}

// A register that breaks a rule, or a write to a reach that it lacks. The place is a reach's or a point's.
#[derive(Clone, Copy, PartialEq, Eq, Debug)]
pub enum BookFault {
    InFile(FileFault),
    Shape,
    Ends(usize),
    Over(usize),
    Unbalanced(u16),
    NoReach(usize),
}

impl From<BookFault> for Refusal {
    ghost from_gives = { λ fault r. r ≡ book_refusal fault };

    fn from(fault: BookFault) -> Refusal
        ensures told { result ≡ book_refusal fault }
        ensures alone { (other : BookFault) → book_refusal other ≡ result → other ≡ fault }
    {
        let (number, place) = match fault {
            BookFault::InFile(fault) => return Refusal::from(fault),
            BookFault::Shape => (6, 0),
            BookFault::Ends(reach) => (7, reach),
            BookFault::Over(reach) => (8, reach),
            BookFault::Unbalanced(point) => (9, usize::from(point)),
            BookFault::NoReach(reach) => (11, reach),
        };
        Refusal {
            layer: Layer::Book,
            number,
            place,
        }
    }
}

// A priority queue that cannot do what is asked. The place is a point's.
#[derive(Clone, Copy, PartialEq, Eq, Debug)]
pub enum PickFault {
    TooSmall,
    Inside(u16),
    KeyTooGreat(u16),
}

impl From<PickFault> for Refusal {
    ghost from_gives = { λ fault r. r ≡ pick_refusal fault };

    fn from(fault: PickFault) -> Refusal
        ensures told { result ≡ pick_refusal fault }
        ensures alone { (other : PickFault) → pick_refusal other ≡ result → other ≡ fault }
    {
        let (number, place) = match fault {
            PickFault::TooSmall => (10, 0),
            PickFault::Inside(point) => (17, usize::from(point)),
            PickFault::KeyTooGreat(point) => (18, usize::from(point)),
        };
        Refusal {
            layer: Layer::Pick,
            number,
            place,
        }
    }
}

// A call that is refused, by its own question or by one below.
#[derive(Clone, Copy, PartialEq, Eq, Debug)]
pub enum CallFault {
    InBook(BookFault),
    InPick(PickFault),
    ShortTable,
    NoSuchReach,
    LimitTooGreat,
    LimitUnderFlow,
    Gains,
    NoSide,
    NotTight,
}

impl From<CallFault> for Refusal {
    ghost from_gives = { λ fault r. r ≡ call_refusal fault };

    fn from(fault: CallFault) -> Refusal
        ensures told { result ≡ call_refusal fault }
        ensures alone { (other : CallFault) → call_refusal other ≡ result → other ≡ fault }
    {
        let number = match fault {
            CallFault::InBook(fault) => return Refusal::from(fault),
            CallFault::InPick(fault) => return Refusal::from(fault),
            CallFault::ShortTable => 10,
            CallFault::NoSuchReach => 11,
            CallFault::LimitTooGreat => 12,
            CallFault::LimitUnderFlow => 13,
            CallFault::Gains => 14,
            CallFault::NoSide => 15,
            CallFault::NotTight => 16,
        };
        Refusal {
            layer: Layer::Call,
            number,
            place: 0,
        }
    }
}

// The three written out, since a derived `From` has no contract.
impl From<FileFault> for BookFault {
    ghost from_gives = { λ fault r. r ≡ InFile fault };

    fn from(fault: FileFault) -> BookFault {
        BookFault::InFile(fault)
    }
}

impl From<BookFault> for CallFault {
    ghost from_gives = { λ fault r. r ≡ InBook fault };

    fn from(fault: BookFault) -> CallFault {
        CallFault::InBook(fault)
    }
}

impl From<PickFault> for CallFault {
    ghost from_gives = { λ fault r. r ≡ InPick fault };

    fn from(fault: PickFault) -> CallFault {
        CallFault::InPick(fault)
    }
}
