// The call that puts a round in the place of a member's record, in place, and the parts of it that others have too.

#![tactic(auto)]

ghost use Rattle.std.specs.Prelude.{◌≡◌};
ghost use Rattle.answers.specs.Answers.{answered, round_of};
ghost use Rattle.steps.specs.Call as C;
ghost use Rattle.steps.specs.Step.{say};
ghost use Rattle.multimap.specs.WellLinked.{Calls};
ghost use Rattle.inserting.specs.Records.{without_record, with_only};

use answers::Refusal;
use index::{Found, KeyPlace};
use multimap::ListOrderedMultimap;

// Puts the round v in the place of the member's record; a new member joins at the back. The answer is the old record's first round, or none.
pub fn insert(
    map: &mut ListOrderedMultimap,
    poster: u64,
    k: u64,
    v: u64,
) -> Result<Option<u64>, Refusal>
    ensures { Calls (C.insert poster k v) map.old (say (answered round_of result)) map.new }
{
    adding::check_poster(poster)?;
    match map.find(k) {
        Found::At(_, key, _) => {
            let first = map.round(map.head(key));
            replace(map, poster, key, v);
            Ok(Some(first))
        }
        Found::Absent(at, _) => {
            adding::admit(map, poster, k, v, at)?;
            Ok(None)
        }
    }
}

// Puts the round v in the place of the record of the member place `key`, which keeps its place among the members.
pub fn replace(map: &mut ListOrderedMultimap, poster: u64, key: KeyPlace, v: u64)
    ensures { map.new ≡ with_only map.old poster key v }
{
    empty(map, key);
    changing::add(map, poster, key, v);
}

// Strikes the rounds of the member place `key`, as many as its length says, from its head on.
// Strikes where `removing::remove_record` lets each round leave: the member stays with no round, for the one that `replace` adds.
pub fn empty(map: &mut ListOrderedMultimap, key: KeyPlace)
    ensures { map.new ≡ without_record map.old key }
{
    // Goes along the links by hand, since it changes them as it goes.
    let mut x = map.head(key);
    for _ in 0..map.size(key) {
        let after = links::after(&map.next_index, x);
        changing::strike(map, x);
        x = after;
    }
}
