// Paper 01, 'What comes back': the status that every call of a console or a multiplexer answers with, and what is handed back beside it. What else a call leaves is in specs/.
#![tactic(auto)]

ghost use Rattle.std.specs.Prelude.{◌≡◌};
ghost use Rattle.reply.specs.Numbers.{status_number};
ghost use Rattle.reply.specs.Handed.{answer_of, taking_of};

// The table's rows in its order, with its numbers. 1 to 10 are refusals.
// One enum with Done, and no Result: paper 01 asks for a number for every case of the answer, and a refusal too hands back the state and a count (`Replies`).
#[derive(Clone, Copy, PartialEq, Eq, Debug)]
pub enum Status {
    Done = 0,
    ScreenLength = 1,
    Invalid = 2,
    ClientZero = 3,
    PaneIllegal = 4,
    ClientTaken = 5,
    PaneShared = 6,
    Full = 7,
    NotOpen = 8,
    BlockTooShort = 9,
    BlockMismatch = 10,
}

// The paper's number.
pub fn status_number(status: Status) -> u8
    ensures { result ≡ status_number status }
{
    status as u8
}

// What a call hands back: the status, the state (a port or a multiplexer), and the count of bells or of bytes.
#[derive(Clone, Copy, PartialEq, Eq, Debug)]
pub struct Answer<S> {
    pub status: Status,
    pub state: S,
    pub count: usize,
}

impl<S> Answer<S> {
    pub fn done(state: S, count: usize) -> Self
        ensures { result ≡ answer_of Status.Done state count }
    {
        Answer {
            status: Status::Done,
            state,
            count,
        }
    }

    // A refusal hands back the state as it came, and a count of 0.
    pub fn refused(status: Status, state: S) -> Self
        ensures { result ≡ answer_of status state 0 }
    {
        Answer {
            status,
            ..Answer::done(state, 0)
        }
    }
}

// Apart from `Answer`: a taking's result has two parts (`Taken`), and a host reads its fields as they are.
// What a taking hands back: the status, the state, the marks (line r is bit r, line 0 the lowest), and how many lines are marked.
#[derive(Clone, Copy, PartialEq, Eq, Debug)]
pub struct Taking<S> {
    pub status: Status,
    pub state: S,
    pub marks: u32,
    pub count: usize,
}

impl<S> Taking<S> {
    pub fn done(state: S, marks: u32, lines: usize) -> Self
        ensures { result ≡ taking_of Status.Done state marks lines }
    {
        Taking {
            status: Status::Done,
            state,
            marks,
            count: lines,
        }
    }

    // A refusal hands back the state as it came, no marks and 0.
    pub fn refused(status: Status, state: S) -> Self
        ensures { result ≡ taking_of status state 0 0 }
    {
        Taking {
            status,
            ..Taking::done(state, 0, 0)
        }
    }
}
