// `new` and `clear`, after which no place is in use, and `pack_to`, after which the places from 0 on are, in order. The map is changed where it
// stands. No public function has a premise.

#![tactic(auto)]

ghost use Rattle.std.specs.Prelude.{◌≡◌, List, ℕ, length};
ghost use Rattle.answers.specs.Answers.{answered, done_of};
ghost use Rattle.steps.specs.Call as C;
ghost use Rattle.steps.specs.Proper.{Allowed};
ghost use Rattle.steps.specs.Step.{say};
ghost use Rattle.multimap.specs.Making.{Makes};
ghost use Rattle.multimap.specs.Map.{limits_of};
ghost use Rattle.multimap.specs.WellLinked.{Calls, WellLinked};
ghost use Rattle.packing.specs.Building.{listed, Distinct, MembersCopied, RoundsCopied, Seated, Apart, Fillable, Filled, Repacked};
ghost use Rattle.packing.specs.Cleared.{cleared, zeros};

use answers::Refusal;
use index::{Found, KeyPlace};
use links::{Counts, Place};
use multimap::{Limits, ListOrderedMultimap, MEMBERS, ROUNDS, ValuePlace};

// Makes the empty map with these limits, whatever the map holds; a refused making leaves it with both limits 0.
pub fn new(map: &mut ListOrderedMultimap, limits: Limits) -> Result<(), Refusal>
    ensures { Makes limits (answered done_of result) map.new }
{
    if limits.are_too_high() {
        reset(map, Limits::NONE);
        return Err(Refusal::LimitsAbove);
    }
    reset(map, limits);
    Ok(())
}

// Empties the map, which stays as it is where it holds no round: then it has no member either. T stays.
pub fn clear(map: &mut ListOrderedMultimap)
    ensures { Calls C.clear map.old (say C.done) map.new }
{
    if map.rounds.len == 0 {
        return;
    }
    vacate(map);
}

// Moves the i-th pair to the round place i, and the i-th member to the member place i.
pub fn pack_to(
    map: &mut ListOrderedMultimap,
    keys_minimum: u64,
    values_minimum: u64,
) -> Result<(), Refusal>
    ensures { Calls (C.pack_to keys_minimum values_minimum) map.old (say (answered done_of result)) map.new }
{
    if keys_minimum < map.members.len as u64 {
        return Err(Refusal::MembersBelow);
    }
    if values_minimum < map.rounds.len as u64 {
        return Err(Refusal::RoundsBelow);
    }
    if (map.members.limit as u64) < keys_minimum || (map.rounds.limit as u64) < values_minimum {
        return Err(Refusal::Above);
    }
    pack(map);
    Ok(())
}

// Makes the empty map with these limits field by field: a map made by value first would take a second one's stack, and write what lies between
// two fields, which the C interface keeps.
fn reset(map: &mut ListOrderedMultimap, limits: Limits)
    requires { Allowed limits }
    ensures { map.new ≡ cleared (zeros limits) }
{
    let first_key = KeyPlace::new(0);
    let first_value = ValuePlace::new(0);
    let keys = [0; 256];
    let lengths = [0; 256];
    let next_key = [first_key; 257];
    let previous_key = [first_key; 257];
    let values = [0; 1024];
    let key_index = [first_key; 1024];
    let next_value = [first_value; 1025];
    let previous_value = [first_value; 1025];
    let next_index = [first_value; 1280];
    let previous_index = [first_value; 1280];
    let taken = [0; 16];
    map.keys = keys;
    map.lengths = lengths;
    map.next_key = next_key;
    map.previous_key = previous_key;
    map.values = values;
    map.key_index = key_index;
    map.next_value = next_value;
    map.previous_value = previous_value;
    map.next_index = next_index;
    map.previous_index = previous_index;
    map.taken = taken;
    map.members.limit = limits.members as u16;
    map.rounds.limit = limits.rounds as u16;
    vacate(map);
}

// Leaves no place in use: both lists end where they begin, and the index is empty. What stands in the places is left as it is.
fn vacate(map: &mut ListOrderedMultimap)
    ensures { map.new ≡ cleared map.old }
{
    map.next_key[256] = KeyPlace::new(MEMBERS);
    map.previous_key[256] = KeyPlace::new(MEMBERS);
    map.next_value[1024] = ValuePlace::new(ROUNDS);
    map.previous_value[1024] = ValuePlace::new(ROUNDS);
    map.index = index::empty();
    map.members = Counts::unused(map.members.limit);
    map.rounds = Counts::unused(map.rounds.limit);
}

// Copies the map out, and takes it in again from the empty map on: places are taken from 0 on then. T is set apart.
// Copies no more than it needs: a copy of the whole map was tried, and takes 28 KB of stack where these four arrays take 13; an array
// of pairs would take 16 KB where `owners` and `scores` take 10.
fn pack(map: &mut ListOrderedMultimap)
    ensures { WellLinked map.old → Repacked map.old map.new }
{
    let mut numbers = [0; 256];
    let mut ranks = [KeyPlace::new(0); 256];
    let mut owners = [KeyPlace::new(0); 1024];
    let mut scores = [0; 1024];
    // Cuts at the arrays' ends too, past which no list of a well-linked map goes.
    let keys_held = map.members.len.min(MEMBERS) as usize;
    let values_held = map.rounds.len.min(ROUNDS) as usize;
    let numbers = &mut numbers[..keys_held];
    let owners = &mut owners[..values_held];
    let scores = &mut scores[..values_held];
    let before = map.taken;
    copy_members(map, numbers, &mut ranks);
    copy_rounds(map, &ranks, owners, scores);
    vacate(map);
    seat(map, numbers);
    fill(map, owners, scores);
    map.taken = before;
}

// Copies the members' numbers out, in order; and at each member's place how many come before it.
// Walks once for both, as `copy_rounds` does: tried by `copying::copy` for the numbers, with a walk for the ranks, `pack_to` takes 6 to 15 in a
// hundred longer, and by it for the scores 12 to 19.
fn copy_members(map: &ListOrderedMultimap, numbers: &mut [u64], ranks: &mut [KeyPlace; 256])
    ensures { let ks : List ℕ = listed map.now.next_key 256 map.now.members.len in Distinct ks 256 → length numbers.old ≡ map.now.members.len → MembersCopied map.now.keys ks numbers.new ranks.new }
{
    // Writes by the rank, since a proof knows nothing of what is written through a `zip` of `iter_mut`; `copy_rounds` does so too.
    for (rank, x) in map.member_places().enumerate() {
        links::put(numbers, rank, map.member(x));
        links::put(ranks, x.index(), KeyPlace::new(rank as u16));
    }
}

// Copies the rounds out, in order, each with what `ranks` has at its member's place.
fn copy_rounds(
    map: &ListOrderedMultimap,
    ranks: &[KeyPlace; 256],
    owners: &mut [KeyPlace],
    scores: &mut [u64],
)
    ensures { let vs : List ℕ = listed map.now.next_value 1024 map.now.rounds.len in length owners.old ≡ map.now.rounds.len → length scores.old ≡ map.now.rounds.len → RoundsCopied map.now.values map.now.key_index ranks.now vs owners.new scores.new }
{
    for (i, x) in map.round_places().enumerate() {
        links::put(owners, i, links::after(ranks, map.owner(x)));
        links::put(scores, i, map.round(x));
    }
}

// Lets the numbers join as members, in order, each with no round yet.
fn seat(map: &mut ListOrderedMultimap, numbers: &[u64])
    ensures { Seated numbers.now (limits_of map.old) 0 map.old → Apart numbers.now (length numbers.now) → Seated numbers.now (limits_of map.old) (length numbers.now) map.new }
{
    for &k in numbers {
        let Found::Absent(at, _) = map.find(k) else {
            return;
        };
        changing::join(map, k, at);
    }
}

// Adds the scores as rounds, in order, each of the member place that stands beside it.
fn fill(map: &mut ListOrderedMultimap, owners: &[KeyPlace], scores: &[u64])
    ensures { Fillable owners.now (length owners.now) map.old → length scores.now ≡ length owners.now → Filled map.old owners.now scores.now (length owners.now) map.new }
{
    for (&owner, &v) in owners.iter().zip(scores) {
        changing::add(map, 0, owner, v);
    }
}
