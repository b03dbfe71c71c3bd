// The four changes of the map, in place: a member joins, a round is added, a round leaves, a member leaves. No copy of the map is made, and no
// function has a premise on what the arrays hold: a place past the end of an array changes nothing there.

#![tactic(auto)]

ghost use Rattle.std.specs.Prelude.{◌≡◌};
ghost use Rattle.steps.specs.State.{counting};
ghost use Rattle.links.specs.Stores.{spot};
ghost use Rattle.multimap.specs.Changes.{with_member, with_round, without_round, Parted, Left};

use index::KeyPlace;
use links::Place;
use multimap::{ListOrderedMultimap, MEMBERS, ROUNDS, ValuePlace};

// Lets the member k join at the back, with no round yet; `at` is where the search for it in the index ended. The answer is its place.
pub fn join(map: &mut ListOrderedMultimap, k: u64, at: usize) -> KeyPlace
    ensures { (result ≡ spot map.old.members) × (map.new ≡ with_member map.old k at) }
{
    let key = links::take(&map.next_key, &mut map.members);
    let cell = multimap::base(key);
    links::link(
        &mut map.next_key,
        &mut map.previous_key,
        KeyPlace::new(MEMBERS),
        key,
    );
    links::put(&mut map.keys, key.index(), k);
    links::put(&mut map.lengths, key.index(), 0);
    links::put(&mut map.next_index, cell.index(), cell);
    links::put(&mut map.previous_index, cell.index(), cell);
    index::insert(&mut map.index, at, key);
    key
}

// Adds the round v of the member place `key` at the back, and counts it for the poster; a number that is no poster's counts nowhere.
pub fn add(map: &mut ListOrderedMultimap, poster: u64, key: KeyPlace, v: u64)
    ensures { map.new ≡ with_round map.old poster key v }
{
    let x = links::take(&map.next_value, &mut map.rounds);
    let cell = multimap::base(key);
    links::link(
        &mut map.next_value,
        &mut map.previous_value,
        ValuePlace::new(ROUNDS),
        x,
    );
    links::link(&mut map.next_index, &mut map.previous_index, cell, x);
    links::put(&mut map.values, x.index(), v);
    links::put(&mut map.key_index, x.index(), key);
    let size = map.size(key);
    links::put(&mut map.lengths, key.index(), links::one_more(size));
    count(&mut map.taken, poster);
}

// Takes the round in the place x out of the list of rounds and of its member's chain; its place is free.
pub fn strike(map: &mut ListOrderedMultimap, x: ValuePlace)
    ensures { map.new ≡ without_round map.old x }
{
    links::unlink(&mut map.next_value, &mut map.previous_value, x);
    links::release(&mut map.next_value, &mut map.rounds, x);
    links::unlink(&mut map.next_index, &mut map.previous_index, x);
    let key = map.owner(x);
    let size = map.size(key);
    links::put(&mut map.lengths, key.index(), links::one_less(size));
}

// Takes the member in the place `key` out of the list of members and of the index; its place is free.
pub fn part(map: &mut ListOrderedMultimap, key: KeyPlace)
    ensures { Parted map.old key map.new }
{
    let member = map.member(key);
    index::remove(&mut map.index, &map.keys, member);
    links::unlink(&mut map.next_key, &mut map.previous_key, key);
    links::release(&mut map.next_key, &mut map.members, key);
}

// Takes the round in the place x out, and its member with it where that has no other round, which is the answer.
pub fn leave(map: &mut ListOrderedMultimap, x: ValuePlace) -> bool
    ensures { Left map.old x result map.new }
{
    let key = map.owner(x);
    let n = map.size(key);
    strike(map, x);
    if 1 < n {
        return false;
    }
    part(map, key);
    true
}

// Counts one more round of the poster, up to the ceiling.
fn count(taken: &mut [u32; 16], poster: u64)
    ensures { taken.new ≡ counting poster taken.old }
{
    let p = poster as usize;
    if p < taken.len() {
        taken[p] = taken[p].saturating_add(1);
    }
}
