// A call in place, by its number in the table of the calls (crate steps, `call_of`): the C interface and lists of calls name one so.

#![tactic(auto)]

ghost use Rattle.answers.specs.Answers.{answer_of, answered};
ghost use Rattle.turn.specs.Turned.{Called};

use answers::{Answer, IntoAnswer, Refusal};
use multimap::ListOrderedMultimap;

// Makes the call with the number `op`; from 24 on that is `values_len`. `poster`, `k` and `v` are its arguments. A slice that it does not have is
// left as it is.
pub fn call(
    map: &mut ListOrderedMultimap,
    op: u64,
    poster: u64,
    k: u64,
    v: u64,
    out: &mut [u64],
    out2: &mut [u64],
    marks: &[u8],
) -> Result<Answer, Refusal>
    ensures { Called op poster k v map.old map.new out.old out2.old marks.now out.new out2.new (answered answer_of result) }
{
    let answer = match op {
        0 => adding::append(map, poster, k, v)?.into_answer(),
        1 => inserting::insert(map, poster, k, v)?.into_answer(),
        2 => inserting_all::insert_all(map, poster, k, v, out)?.into_answer(),
        3 => removing::remove(map, k).into_answer(),
        4 => removing::remove_all(map, k, out)?.into_answer(),
        5 => reading::entry(map, k).into_answer(),
        6 => entries::occupied_append(map, poster, k, v)?.into_answer(),
        7 => entries::occupied_insert(map, poster, k, v)?.into_answer(),
        8 => entries::occupied_remove_entry(map, k)?.into_answer(),
        9 => entries::vacant_insert(map, poster, k, v)?.into_answer(),
        10 => popping::pop_front(map).into_answer(),
        11 => popping_back::pop_back(map).into_answer(),
        12 => retaining::retain(map, marks)?.into_answer(),
        13 => packing::pack_to(map, k, v)?.into_answer(),
        14 => packing::clear(map).into_answer(),
        15 => reading::get(map, k).into_answer(),
        16 => reading::get_all(map, k, out)?.into_answer(),
        17 => reading::entry_len(map, k).into_answer(),
        18 => reading::contains_key(map, k).into_answer(),
        19 => reading::keys(map, out)?.into_answer(),
        20 => reading::keys_len(map).into_answer(),
        22 => reading::iter(map, out, out2)?.into_answer(),
        23 => reading::write_counters(map, out).into_answer(),
        _ => reading::values_len(map).into_answer(),
    };
    Ok(answer)
}
