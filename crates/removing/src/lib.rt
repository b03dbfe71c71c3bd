// The calls that take a whole record out, in place.

#![tactic(auto)]

ghost use Rattle.answers.specs.Answers.{answered, round_of};
ghost use Rattle.steps.specs.Call as C;
ghost use Rattle.steps.specs.Step.{say, write};
ghost use Rattle.multimap.specs.WellLinked.{Calls};
ghost use Rattle.removing.specs.Expel.{RecordOut};

use answers::Refusal;
use index::{Found, KeyPlace};
use multimap::ListOrderedMultimap;

// Takes the rounds of the member k out, and it with them; answers the first of them.
pub fn remove(map: &mut ListOrderedMultimap, k: u64) -> Option<u64>
    ensures { Calls (C.remove k) map.old (say (round_of result)) map.new }
{
    let Found::At(_, key, _) = map.find(k) else {
        return None;
    };
    let round = map.round(map.head(key));
    remove_record(map, key);
    Some(round)
}

// Takes the rounds of the member k out, and it with them; writes them to the front of `out` and answers how many.
pub fn remove_all(map: &mut ListOrderedMultimap, k: u64, out: &mut [u64]) -> Result<usize, Refusal>
    ensures { Calls (C.remove_all k out.old) map.old (write (answered C.count result) out.new) map.new }
{
    let Found::At(_, key, _) = map.find(k) else {
        return Ok(0);
    };
    let head = map.head(key);
    let size = map.size(key);
    let n = copying::copy(&map.values, &map.next_index, head, size, out)?;
    remove_record(map, key);
    Ok(n)
}

// Takes the rounds of the member in the place `key` out, one after the other; it leaves with the last.
// Is not `inserting::empty` and then `changing::part`, since by these a member place of size 0 would leave too, which here changes nothing.
#[tactic(auto, using(crate::proofs::Expels::goes_on))]
pub fn remove_record(map: &mut ListOrderedMultimap, key: KeyPlace)
    ensures { RecordOut map.old key map.new }
{
    // Goes along the links by hand, since it changes them as it goes.
    let mut x = map.head(key);
    for _ in 0..map.size(key) {
        let next = links::after(&map.next_index, x);
        changing::leave(map, x);
        x = next;
    }
}
