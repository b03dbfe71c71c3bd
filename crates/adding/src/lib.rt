// The call that adds a round, in place, and the part of it that other calls have too.

#![tactic(auto)]

ghost use Rattle.answers.specs.Answers.{answered};
ghost use Rattle.steps.specs.Call as C;
ghost use Rattle.steps.specs.Step.{say};
ghost use Rattle.multimap.specs.WellLinked.{Calls};
ghost use Rattle.adding.specs.Admitted.{Admitted, Posting};

use answers::Refusal;
use index::Found;
use multimap::ListOrderedMultimap;

// Adds the round v of the member k at the back, for the poster; a new member joins at the back. The answer is whether k was present.
pub fn append(map: &mut ListOrderedMultimap, poster: u64, k: u64, v: u64) -> Result<bool, Refusal>
    ensures { Calls (C.append poster k v) map.old (say (answered C.present result)) map.new }
{
    check_poster(poster)?;
    match map.find(k) {
        Found::At(_, key, _) => {
            if map.rounds.is_full() {
                return Err(Refusal::Full);
            }
            changing::add(map, poster, key, v);
            Ok(true)
        }
        Found::Absent(at, _) => {
            admit(map, poster, k, v, at)?;
            Ok(false)
        }
    }
}

// Lets the new member k join with its first round v, where there is room; `at` is where the search for it ended.
pub fn admit(
    map: &mut ListOrderedMultimap,
    poster: u64,
    k: u64,
    v: u64,
    at: usize,
) -> Result<(), Refusal>
    ensures { Admitted map.old poster k v at result map.new }
{
    if map.rounds.is_full() {
        return Err(Refusal::Full);
    }
    if map.members.is_full() {
        return Err(Refusal::Crowded);
    }
    let key = changing::join(map, k, at);
    changing::add(map, poster, key, v);
    Ok(())
}

// Refuses a number that is none of the sixteen posters'.
pub fn check_poster(poster: u64) -> Result<(), Refusal>
    ensures { Posting poster result }
{
    if multimap::no_poster(poster) {
        return Err(Refusal::NoPoster);
    }
    Ok(())
}
