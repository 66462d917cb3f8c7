// One call of a list: which it is, what comes with it, and what it answered.
use crate::answers::{Opened, Rounded, Settled};
use crate::desks::Desk;
use scheme::CallFault;

#[derive(Clone, Copy)]
pub enum Call {
    Open,
    Limit { reach: usize, limit: u32 },
    Round,
    Settle,
    Value,
    Cut,
}

#[derive(Clone, Copy, PartialEq, Eq, Debug)]
pub enum Answer {
    OfOpen(Opened),
    OfLimit(u32),
    OfRound(Rounded),
    OfSettle(Settled),
    OfValue(i64),
    OfCut(u64),
}

// A call with the tables and the pick that it may use, and its answer once it was made.
#[derive(Drop)]
pub struct Ask<P> {
    pub call: Call,
    pub desk: Desk<P>,
    pub answer: Option<Result<Answer, CallFault>>,
}
