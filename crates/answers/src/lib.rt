// What the calls of a map answer: a refusal, or an answer of the call's own type; all of these as one type, and by four numbers.

#![tactic(auto)]

ghost use Rattle.std.specs.Prelude.{◌≡◌, ℕ};
ghost use Rattle.steps.specs.Coded.{coded, decoded};
ghost use Rattle.steps.specs.Call as C;
ghost use Rattle.answers.specs.Answers.{number_of, answer_of, told, numbered, done_of, round_of, popped_of, entry_of};

// Why a call is refused, numbered from 1 on.
#[derive(Clone, Copy, PartialEq, Eq, Debug)]
pub enum Refusal {
    // As many rounds, or as many members, are held as the map's limit.
    Full = 1,
    Crowded = 2,
    // A slice to be written is shorter than what is to be written to it.
    Short = 3,
    // A minimum is below the members held, or the rounds held; or one of the two is above the map's limit.
    MembersBelow = 4,
    RoundsBelow = 5,
    Above = 6,
    // The marks are not as many as the rounds held; one of them is neither 0 nor 1.
    MarksCount = 7,
    MarkValue = 8,
    // The member is not there, or is.
    Absent = 9,
    Present = 10,
    // Of an image: fewer than 8 bytes; a size above the limits; another length than its sizes say; another number of members.
    TooShort = 11,
    TooMany = 12,
    WrongLength = 13,
    WrongMembers = 14,
    // A limit is above the highest; the poster is none of the sixteen.
    LimitsAbove = 15,
    NoPoster = 16,
}

// A round that was taken out with its member, and whether the member left with it.
#[derive(Clone, Copy)]
pub struct Popped {
    pub member: u64,
    pub round: u64,
    pub gone: bool,
}

// A member with so many rounds; or a number that is no member.
#[derive(Clone, Copy)]
pub enum Entry {
    Occupied(usize),
    Vacant(u64),
}

// What a call that is not refused answers, of any call.
#[derive(Clone, Copy)]
pub enum Answer {
    Nothing,
    Done,
    Round(u64),
    Count(u64),
    Present(bool),
    Popped(Popped),
    Occupied(u64),
    Vacant(u64),
}

// What a call answers, as the answer of any call.
pub trait IntoAnswer {
    ghost answer: { Self → C.Answer };

    fn into_answer(self) -> Answer
        ensures { answer_of result ≡ answer self };
}

impl IntoAnswer for Answer {
    ghost answer = { answer_of };

    fn into_answer(self) -> Answer {
        self
    }
}

// Whether the member was, or is, there.
impl IntoAnswer for bool {
    ghost answer = { C.present };

    fn into_answer(self) -> Answer {
        Answer::Present(self)
    }
}

impl IntoAnswer for usize {
    ghost answer = { C.count };

    fn into_answer(self) -> Answer {
        Answer::Count(self as u64)
    }
}

impl IntoAnswer for () {
    ghost answer = { done_of };

    fn into_answer(self) -> Answer {
        Answer::Done
    }
}

// Stands apart from the one for `Option<Popped>`, since one for any `Option<T>` needs one for `u64`, by which any bare number would be a round.
impl IntoAnswer for Option<u64> {
    ghost answer = { round_of };

    fn into_answer(self) -> Answer {
        match self {
            Some(v) => Answer::Round(v),
            None => Answer::Nothing,
        }
    }
}

impl IntoAnswer for Option<Popped> {
    ghost answer = { popped_of };

    fn into_answer(self) -> Answer {
        match self {
            Some(p) => Answer::Popped(p),
            None => Answer::Nothing,
        }
    }
}

impl IntoAnswer for Entry {
    ghost answer = { entry_of };

    fn into_answer(self) -> Answer {
        match self {
            Entry::Occupied(n) => Answer::Occupied(n as u64),
            Entry::Vacant(k) => Answer::Vacant(k),
        }
    }
}

impl Refusal {
    // Has a name, and is no `From`, since `u64::from(refusal)` doesn't say what the number is.
    pub fn number(self) -> u64
        ensures { result ≡ number_of self }
    {
        self as u64
    }
}

// What a refusal is told by: its number.
pub trait IntoNumber {
    ghost number: { Self → ℕ };

    fn into_number(self) -> u64
        ensures { result ≡ number self };
}

impl IntoNumber for Refusal {
    ghost number = { number_of };

    fn into_number(self) -> u64 {
        self.number()
    }
}

// Any number, as `read` gives it: also one that no call gives.
impl IntoNumber for u64 {
    ghost number = { λ n. n };

    fn into_number(self) -> u64 {
        self
    }
}

// Writes the four numbers of what a call answers.
pub fn tell<A: IntoAnswer, R: IntoNumber>(numbers: &mut [u64; 4], outcome: Result<A, R>)
    ensures { numbers.new ≡ coded (told A.answer R.number outcome) }
{
    *numbers = match outcome {
        Ok(a) => numbers_of(a.into_answer()),
        Err(refusal) => [0, refusal.into_number(), 0, 0],
    };
}

// Reads the answer of four numbers. A refusal is given by its number, since they may hold one that no call gives. Numbers of no answer are read as
// `Nothing`.
#[tactic(auto, unfolding(steps::specs::Coded::decoded))]
pub fn read(numbers: [u64; 4]) -> Result<Answer, u64>
    ensures { numbered result ≡ decoded numbers }
{
    match numbers {
        [0, n, ..] => Err(n),
        [1, ..] => Ok(Answer::Nothing),
        [2, ..] => Ok(Answer::Done),
        [3, v, ..] => Ok(Answer::Round(v)),
        [4, n, ..] => Ok(Answer::Count(n)),
        [5, b, ..] => Ok(Answer::Present(b == 1)),
        [6, member, round, gone] => Ok(Answer::Popped(Popped {
            member,
            round,
            gone: gone == 1,
        })),
        [7, n, ..] => Ok(Answer::Occupied(n)),
        [8, k, ..] => Ok(Answer::Vacant(k)),
        _ => Ok(Answer::Nothing),
    }
}

fn numbers_of(answer: Answer) -> [u64; 4]
    ensures { result ≡ coded (answer_of answer) }
{
    match answer {
        Answer::Nothing => [1, 0, 0, 0],
        Answer::Done => [2, 0, 0, 0],
        Answer::Round(v) => [3, v, 0, 0],
        Answer::Count(n) => [4, n, 0, 0],
        Answer::Present(b) => [5, b as u64, 0, 0],
        Answer::Popped(p) => [6, p.member, p.round, p.gone as u64],
        Answer::Occupied(n) => [7, n, 0, 0],
        Answer::Vacant(k) => [8, k, 0, 0],
    }
}
