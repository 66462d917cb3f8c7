// What the calls answer.

// What open answers.
#[derive(Clone, Copy, PartialEq, Eq, Debug)]
pub struct Opened {
    pub points: u16,
    pub reaches: usize,
}

// What a round answers: its gain, and how many points are in its order.
#[derive(Clone, Copy, PartialEq, Eq, Debug)]
pub struct Rounded {
    pub gain: u64,
    pub length: usize,
}

// What settle answers: the value of the flow that it leaves, and how many rounds gained.
#[derive(Clone, Copy, PartialEq, Eq, Debug)]
pub struct Settled {
    pub value: i64,
    pub rounds: u64,
}
