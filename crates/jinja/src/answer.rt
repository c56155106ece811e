// What the machine's calls answer, each case with the number that users know it by.
ghost use Rattle.std.specs.Prelude.{◌≡◌};
ghost use Rattle.jinja.specs.Answers.{answer_number, refusal_number};

use heap::value::Value;

/// Where a machine stands: before a run, in one, or after it.
#[derive(Clone, Copy, PartialEq, Eq)]
pub enum Phase {
    Idle,
    Running,
    Finished,
    Uncaught,
}

/// What a step answers: 0 to 4. Only `Stepped` changes anything.
#[derive(Clone, Copy, PartialEq, Eq)]
pub enum Answer {
    Stepped,
    Finished,
    Uncaught,
    FramesFull,
    Unsound,
}

impl Answer {
    // No `From`: an answer is not turned into its number, it has one.
    /// The number that users know the answer by.
    pub fn number(self) -> u8
        ensures { result ≡ answer_number self }
    {
        match self {
            Answer::Stepped => 0,
            Answer::Finished => 1,
            Answer::Uncaught => 2,
            Answer::FramesFull => 3,
            Answer::Unsound => 4,
        }
    }
}

/// Why a call is refused: 12 to 17.
#[derive(Clone, Copy, PartialEq, Eq)]
pub enum Refusal {
    /// Begin, and the machine is not idle.
    Busy,
    /// Begin, and there is no such class or it sees no method of that name.
    Unseen,
    /// Begin, and the arguments are of another count, hold an address or do not fit.
    Argument,
    /// Begin, and the heap does not take the first four objects.
    NoSpace,
    /// Step, run or end, and the machine is idle.
    Idle,
    /// End, and the ticket is another machine's.
    Ticket,
}

impl Refusal {
    // No `From`: a refusal is not turned into its number, it has one.
    /// The number that users know the refusal by.
    pub fn number(self) -> u8
        ensures { result ≡ refusal_number self }
    {
        match self {
            Refusal::Busy => 12,
            Refusal::Unseen => 13,
            Refusal::Argument => 14,
            Refusal::NoSpace => 15,
            Refusal::Idle => 16,
            Refusal::Ticket => 17,
        }
    }
}

/// What a run came to.
// No Option of a Result: an object that is thrown is no error of the machine.
#[derive(Clone, Copy, PartialEq, Eq)]
pub enum Outcome {
    Nothing,
    Returned(Value),
    /// The address of the object that no handler caught.
    Threw(u16),
}

/// What end answers.
#[derive(Clone, Copy, PartialEq, Eq)]
pub struct Ended {
    pub phase: Phase,
    pub steps: u64,
    pub outcome: Outcome,
}

/// What run answers: how many steps were answered 0, and the last answer.
#[derive(Clone, Copy, PartialEq, Eq)]
pub struct Ran {
    pub count: u64,
    pub last: Answer,
}

/// What any call answers.
#[derive(Clone, Copy, PartialEq, Eq)]
pub enum Reply {
    /// Begin, with the number that its ticket bears.
    Began(u32),
    Stepped(Answer),
    Ran(Ran),
    Ended(Ended),
    Refused(Refusal),
}
