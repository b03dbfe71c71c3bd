// The call of each kind of line on the map, and its answer printed to the front of `out`; each answers how many bytes it printed. The out slices
// that are lent to a call are as long as any result.

#![tactic(auto, using(crate::proofs::Calls::replied, crate::proofs::Calls::shown), unfolding(crate::specs::Answer::answer_of, crate::specs::Answer::idle))]

ghost use Rattle.std.specs.Prelude.{◌≡◌, map as mapped};
ghost use Rattle.parsing.specs.Line as Line;
ghost use Rattle.line_calls.specs.Answer.{marks_line};
ghost use Rattle.line_calls.specs.Replied.{Replies, Shows};

use answers::Refusal;
use multimap::ListOrderedMultimap;
use parsing::MAX_LINE;
use printing::{print_answer, print_bad, print_members, print_old, print_pairs};

pub fn adds(map: &mut ListOrderedMultimap, k: u64, v: u64, out: &mut [u8]) -> usize
    ensures { Replies (Line.adds k v) map.old out.old out.new map.new result }
{
    print_answer(out, adding::append(map, 0, k, v))
}

pub fn inserts(map: &mut ListOrderedMultimap, k: u64, v: u64, out: &mut [u8]) -> usize
    ensures { Replies (Line.inserts k v) map.old out.old out.new map.new result }
{
    let mut old = [0; 1024];
    let outcome = inserting_all::insert_all(map, 0, k, v, &mut old);
    print_old(out, outcome, &old)
}

pub fn removes(map: &mut ListOrderedMultimap, k: u64, out: &mut [u8]) -> usize
    ensures { Replies (Line.removes k) map.old out.old out.new map.new result }
{
    let mut old = [0; 1024];
    let outcome = removing::remove_all(map, k, &mut old);
    print_old(out, outcome, &old)
}

pub fn front(map: &mut ListOrderedMultimap, out: &mut [u8]) -> usize
    ensures { Replies Line.front map.old out.old out.new map.new result }
{
    print_answer(out, Ok::<_, Refusal>(popping::pop_front(map)))
}

pub fn back(map: &mut ListOrderedMultimap, out: &mut [u8]) -> usize
    ensures { Replies Line.back map.old out.old out.new map.new result }
{
    print_answer(out, Ok::<_, Refusal>(popping_back::pop_back(map)))
}

// Takes the bytes after the letter and its space for the marks; more than a line has are none.
pub fn keeps(map: &mut ListOrderedMultimap, bytes: &[u8], out: &mut [u8]) -> usize
    ensures { Replies (marks_line bytes.now) map.old out.old out.new map.new result }
{
    if MAX_LINE < bytes.len() {
        return print_bad(out);
    }
    let mut marks = [0; MAX_LINE];
    let marks = &mut marks[..bytes.len()];
    marks.copy_from_slice(bytes);
    to_marks(marks);
    print_answer(out, retaining::retain(map, marks))
}

pub fn lists(map: &ListOrderedMultimap, out: &mut [u8]) -> usize
    ensures { Shows Line.lists map.now out.old out.new result }
{
    let mut members = [0; 1024];
    let mut rounds = [0; 1024];
    let outcome = reading::iter(map, &mut members, &mut rounds);
    print_pairs(out, outcome, &members, &rounds)
}

pub fn members_line(map: &ListOrderedMultimap, out: &mut [u8]) -> usize
    ensures { Shows Line.members map.now out.old out.new result }
{
    let mut members = [0; 1024];
    let outcome = reading::keys(map, &mut members);
    print_members(out, outcome, &members)
}

// Makes each character the mark that it says.
fn to_marks(bytes: &mut [u8])
    ensures { bytes.new ≡ mapped Line.mark_of bytes.old }
{
    for b in bytes.iter_mut() {
        *b = u8::from(*b == b'1');
    }
}
