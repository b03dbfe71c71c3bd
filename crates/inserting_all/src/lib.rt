// The call that puts a round in the place of a member's record and hands the record out, in place. It has a crate of its own: where each crate is
// compiled by itself, each has then one caller of `replace` and `admit`, and the compiler puts them into it and into `insert`.

#![tactic(auto)]

ghost use Rattle.answers.specs.Answers.{answered};
ghost use Rattle.steps.specs.Call as C;
ghost use Rattle.steps.specs.Step.{write};
ghost use Rattle.multimap.specs.WellLinked.{Calls};

use answers::Refusal;
use index::Found;
use multimap::ListOrderedMultimap;

// Puts the round v in the place of the member's record, which is written, in order, to the front of `out`; a new member joins at the back.
// The answer is how long the record was.
pub fn insert_all(
    map: &mut ListOrderedMultimap,
    poster: u64,
    k: u64,
    v: u64,
    out: &mut [u64],
) -> Result<usize, Refusal>
    ensures { Calls (C.insert_all poster k v out.old) map.old (write (answered C.count result) out.new) map.new }
{
    adding::check_poster(poster)?;
    match map.find(k) {
        Found::At(_, key, _) => {
            let head = map.head(key);
            let size = map.size(key);
            let n = copying::copy(&map.values, &map.next_index, head, size, out)?;
            inserting::replace(map, poster, key, v);
            Ok(n)
        }
        Found::Absent(at, _) => {
            adding::admit(map, poster, k, v, at)?;
            Ok(0)
        }
    }
}
