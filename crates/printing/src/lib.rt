// How an answer is printed: by itself, or with what a call wrote to its slices.

#![tactic(auto)]

mod putting;

ghost use Rattle.std.specs.Prelude.{◌+◌, ◌<◌, ◌≡◌, [], ◌++◌, length, take};
ghost use Rattle.steps.specs.Call.{lend};
ghost use Rattle.steps.specs.Call as C;
ghost use Rattle.answers.specs.Answers.{answer_of, told};
ghost use Rattle.printing.specs.Text as Text;
ghost use Rattle.printing.specs.Reply as Reply;
ghost use Rattle.printing.specs.Counts.{text_with};
ghost use Rattle.printing.specs.Said.{max_printed, Prints};
ghost use Rattle.printing.specs.Put.{Room, Wrote};

use crate::putting::Writer;
pub use crate::putting::decimal;
use answers::{Answer, IntoAnswer, IntoNumber, Popped};

// The longest printed line, with its line end: `list` and 1,024 pairs of two numbers of 20 digits.
pub const MAX_PRINTED: usize = 43013;

// What a count counts, by what the call wrote to its slices.
#[derive(Clone, Copy)]
enum Counted<'a> {
    Kept,
    Old(&'a [u64; 1024]),
    Members(&'a [u64; 1024]),
    Pairs(&'a [u64; 1024], &'a [u64; 1024]),
}

// Prints an answer to the front of `out`, and answers how many bytes it has; without room for the longest line nothing is printed. A count is
// of the rounds kept.
pub fn print_answer<A: IntoAnswer + Drop, R: IntoNumber + Drop>(
    out: &mut [u8],
    outcome: Result<A, R>,
) -> usize
    ensures { Prints out.old (Reply.text_of (Reply.kept (lend [] [])) (told A.answer R.number outcome)) out.new result }
{
    print(out, outcome, Counted::Kept)
}

// Prints an answer that counts the rounds written out, with these.
pub fn print_old<A: IntoAnswer + Drop, R: IntoNumber + Drop>(
    out: &mut [u8],
    outcome: Result<A, R>,
    rounds: &[u64; 1024],
) -> usize
    ensures { Prints out.old (Reply.text_of (Reply.old (lend rounds.now [])) (told A.answer R.number outcome)) out.new result }
{
    print(out, outcome, Counted::Old(rounds))
}

// Prints an answer that counts the members written out, with these.
pub fn print_members<A: IntoAnswer + Drop, R: IntoNumber + Drop>(
    out: &mut [u8],
    outcome: Result<A, R>,
    members: &[u64; 1024],
) -> usize
    ensures { Prints out.old (Reply.text_of (Reply.keyed (lend members.now [])) (told A.answer R.number outcome)) out.new result }
{
    print(out, outcome, Counted::Members(members))
}

// Prints an answer that counts the pairs written out, with these.
pub fn print_pairs<A: IntoAnswer + Drop, R: IntoNumber + Drop>(
    out: &mut [u8],
    outcome: Result<A, R>,
    members: &[u64; 1024],
    rounds: &[u64; 1024],
) -> usize
    ensures { Prints out.old (Reply.text_of (Reply.listed (lend members.now rounds.now)) (told A.answer R.number outcome)) out.new result }
{
    print(out, outcome, Counted::Pairs(members, rounds))
}

// Prints what a line gets that asks nothing.
pub fn print_bad(out: &mut [u8]) -> usize
    ensures { Prints out.old Reply.bad_text out.new result }
{
    if out.len() < MAX_PRINTED {
        return 0;
    }
    let mut line = Writer { out, at: 0 };
    line.put(b"line?");
    line.at
}

// Refers to the first n numbers, or to all where there are fewer.
fn first(n: u64, numbers: &[u64]) -> &[u64]
    ensures { result.now ≡ take n numbers.now }
{
    numbers.get(..n as usize).unwrap_or(numbers)
}

// Prints an answer, a count with what it counts.
#[tactic(auto, using(crate::proofs::Sayings::said, crate::proofs::Sayings::prints))]
fn print<A: IntoAnswer + Drop, R: IntoNumber + Drop>(
    out: &mut [u8],
    outcome: Result<A, R>,
    counted: Counted,
) -> usize
    ensures { Prints out.old (Reply.text_of (text_with counted.entry) (told A.answer R.number outcome)) out.new result }
{
    if out.len() < MAX_PRINTED {
        return 0;
    }
    let mut line = Writer { out, at: 0 };
    line.put_outcome(outcome, counted);
    line.at
}

impl Writer<'_> {
    // Writes a word, and a number after a space.
    fn put_count(&mut self, word: &[u8], n: u64)
        requires { Room (length word.now + 21) self.old }
        ensures { Wrote self.old (word.now ++ Text.spaced n) self.new }
    {
        self.put(word);
        self.put_after(b' ', n);
    }

    // Writes `pop`, the member, the round, and whether the member is gone.
    fn put_popped(&mut self, p: Popped)
        requires { Room 51 self.old }
        ensures { Wrote self.old (Reply.text_of (Reply.kept (lend [] [])) (C.popped p.member p.round p.gone)) self.new }
    {
        self.put_count(b"pop", p.member);
        self.put_after(b' ', p.round);
        self.put(if p.gone { b" gone" } else { b" stays" });
    }

    // Writes an answer, or the number of a refusal.
    #[tactic(auto, using(crate::proofs::Decimals::decimal_long))]
    fn put_outcome<A: IntoAnswer, R: IntoNumber>(&mut self, outcome: Result<A, R>, counted: Counted)
        requires { Room max_printed self.old }
        ensures wrote { Wrote self.old (Reply.text_of (text_with counted.entry) (told A.answer R.number outcome)) self.new }
        ensures short { self.new.at < self.old.at + max_printed }
    {
        match outcome {
            Ok(a) => self.put_answer(a.into_answer(), counted),
            Err(refusal) => self.put_count(b"refused", refusal.into_number()),
        }
    }

    // Writes an answer. Those of the last arm are no line's.
    fn put_answer(&mut self, answer: Answer, counted: Counted)
        requires { Room max_printed self.old }
        ensures wrote { Wrote self.old (Reply.text_of (text_with counted.entry) (answer_of answer)) self.new }
        ensures short { self.new.at < self.old.at + max_printed }
    {
        match answer {
            Answer::Nothing => self.put(b"none"),
            Answer::Count(n) => self.put_counted(n, counted),
            Answer::Present(was) => self.put(if was { b"present" } else { b"new" }),
            Answer::Popped(p) => self.put_popped(p),
            Answer::Done | Answer::Round(_) | Answer::Occupied(_) | Answer::Vacant(_) => {}
        }
    }

    // Writes a count with what it counts.
    fn put_counted(&mut self, n: u64, counted: Counted)
        requires { Room max_printed self.old }
        ensures wrote { Wrote self.old (text_with counted.entry n) self.new }
        ensures short { self.new.at < self.old.at + max_printed }
    {
        match counted {
            Counted::Kept => self.put_count(b"kept", n),
            Counted::Old(rounds) => {
                self.put_count(b"old", n);
                self.put_values(first(n, rounds));
            }
            Counted::Members(members) => {
                self.put(b"keys");
                self.put_values(first(n, members));
            }
            Counted::Pairs(members, rounds) => {
                self.put(b"list");
                self.put_pairs(first(n, members), first(n, rounds));
            }
        }
    }
}
