// The calls of the Rust crate's `OccupiedEntry` and `VacantEntry`, in place. Each goes on only where the entry is Occupied, or Vacant.

#![tactic(auto)]

ghost use Rattle.answers.specs.Answers.{answered, done_of, round_of};
ghost use Rattle.steps.specs.Call as C;
ghost use Rattle.steps.specs.State.{present};
ghost use Rattle.steps.specs.Step.{say};
ghost use Rattle.multimap.specs.Map.{state_of};
ghost use Rattle.multimap.specs.WellLinked.{Calls, WellLinked};
ghost use Rattle.entries.specs.Occupying.{Occupying};

use answers::{Entry, Refusal};
use multimap::ListOrderedMultimap;

// Adds a further round v of the member k at the back.
pub fn occupied_append(
    map: &mut ListOrderedMultimap,
    poster: u64,
    k: u64,
    v: u64,
) -> Result<(), Refusal>
    ensures { Calls (C.occupied_append poster k v) map.old (say (answered done_of result)) map.new }
{
    adding::check_poster(poster)?;
    check_occupied(map, k)?;
    adding::append(map, poster, k, v)?;
    Ok(())
}

// Puts the round v in the place of the member's record. The answer is the old record's first round.
pub fn occupied_insert(
    map: &mut ListOrderedMultimap,
    poster: u64,
    k: u64,
    v: u64,
) -> Result<Option<u64>, Refusal>
    ensures { Calls (C.occupied_insert poster k v) map.old (say (answered round_of result)) map.new }
{
    adding::check_poster(poster)?;
    check_occupied(map, k)?;
    inserting::insert(map, poster, k, v)
}

// Takes the member k out with its record. The answer is the record's first round.
pub fn occupied_remove_entry(map: &mut ListOrderedMultimap, k: u64) -> Result<Option<u64>, Refusal>
    ensures { Calls (C.occupied_remove_entry k) map.old (say (answered round_of result)) map.new }
{
    check_occupied(map, k)?;
    Ok(removing::remove(map, k))
}

// Lets the new member k join with its first round v.
pub fn vacant_insert(
    map: &mut ListOrderedMultimap,
    poster: u64,
    k: u64,
    v: u64,
) -> Result<(), Refusal>
    ensures { Calls (C.vacant_insert poster k v) map.old (say (answered done_of result)) map.new }
{
    adding::check_poster(poster)?;
    let Entry::Vacant(_) = reading::entry(map, k) else {
        return Err(Refusal::Present);
    };
    adding::append(map, poster, k, v)?;
    Ok(())
}

// Refuses a call on the entry of a number that is no member.
fn check_occupied(map: &ListOrderedMultimap, k: u64) -> Result<(), Refusal>
    ensures { WellLinked map.now → Occupying (present k (state_of map.now)) result }
{
    let Entry::Occupied(_) = reading::entry(map, k) else {
        return Err(Refusal::Absent);
    };
    Ok(())
}
