// One line of the calls program answered on a map, in place.

#![tactic(auto)]

ghost use Rattle.parsing.specs.Line as Line;
ghost use Rattle.line_calls.specs.Replied.{Replies};
ghost use Rattle.one_line.specs.Answers.{Answers};

use multimap::ListOrderedMultimap;
use parsing::Request;
use printing::MAX_PRINTED;

// Does what the line asks, prints its answer and the line end to the front of `out`, and answers how many bytes were printed. Where `out` has
// no room for the longest printed line nothing is done, and the answer is 0.
#[tactic(auto, using(crate::proofs::Lines::line_answered, crate::proofs::Lines::line_unanswered))]
pub fn answer_line(map: &mut ListOrderedMultimap, line: &[u8], out: &mut [u8]) -> usize
    ensures { Answers line.now map.old out.old out.new map.new result }
{
    if out.len() < MAX_PRINTED {
        return 0;
    }
    let count = ask(map, line, out);
    out[count] = b'\n';
    count + 1
}

// Makes the call that the line asks, and prints its answer.
#[tactic(auto, using(crate::proofs::Lines::marks_rest, line_calls::proofs::Calls::replied_bad))]
fn ask(map: &mut ListOrderedMultimap, line: &[u8], out: &mut [u8]) -> usize
    ensures { Replies (Line.line_of line.now) map.old out.old out.new map.new result }
{
    match parsing::parse(line) {
        Request::Adds(k, v) => line_calls::adds(map, k, v, out),
        Request::Inserts(k, v) => line_calls::inserts(map, k, v, out),
        Request::Removes(k) => line_calls::removes(map, k, out),
        Request::Front => line_calls::front(map, out),
        Request::Back => line_calls::back(map, out),
        Request::Keeps => line_calls::keeps(map, &line[line.len().min(2)..], out),
        Request::Lists => line_calls::lists(map, out),
        Request::Members => line_calls::members_line(map, out),
        Request::Bad => printing::print_bad(out),
    }
}
