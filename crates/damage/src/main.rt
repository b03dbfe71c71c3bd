// Damages a small map one place at a time and prints what the check says of each.

#![tactic(auto)]

ghost use Rattle.multimap.specs.WellLinked.{WellLinked};

use index::KeyPlace;
use links::{Counts, Place};
use multimap::{Limits, ListOrderedMultimap, ValuePlace};
use std::io;

fn main(rt: HostRuntime) -> io::Result<()> {
    damaged(&rt, "as it is", |_| {})?;
    damaged(&rt, "the empty map", make_empty)?;
    rounds(&rt)?;
    round_counts(&rt)?;
    members(&rt)?;
    member_counts(&rt)?;
    limits(&rt)?;
    owners(&rt)?;
    record_ends(&rt)?;
    records(&rt)?;
    damaged(&rt, "a member without a round", change_owner)?;
    index_places(&rt)?;
    no_damage(&rt)
}

// Makes the sample: the rounds 7:10, 9:20 and 7:11 in the places 0 to 2, their members in 0 and 1. Round place 3 and member place 2 are freed.
fn sample(map: &mut ListOrderedMultimap)
    ensures { WellLinked map.new }
{
    let limits = Limits {
        members: 3,
        rounds: 5,
    };
    let _ = packing::new(map, limits);
    let _ = adding::append(map, 0, 7, 10);
    let _ = adding::append(map, 0, 9, 20);
    let _ = adding::append(map, 0, 7, 11);
    let _ = adding::append(map, 0, 5, 30);
    removing::remove(map, 5);
}

// Gives a record to make a map in. By `multimap::new`, which stands by itself, it would be made beside the map and copied.
fn zeros() -> ListOrderedMultimap {
    let first_key = KeyPlace::new(0);
    let first_value = ValuePlace::new(0);
    ListOrderedMultimap {
        keys: [0; 256],
        lengths: [0; 256],
        next_key: [first_key; 257],
        previous_key: [first_key; 257],
        values: [0; 1024],
        key_index: [first_key; 1024],
        next_value: [first_value; 1025],
        previous_value: [first_value; 1025],
        next_index: [first_value; 1280],
        previous_index: [first_value; 1280],
        index: [0; 512],
        members: Counts::unused(0),
        rounds: Counts::unused(0),
        taken: [0; 16],
    }
}

// Makes the map without a round, whose limits are 0.
fn make_empty(map: &mut ListOrderedMultimap) {
    let _ = packing::new(map, Limits::NONE);
}

// Gives the round 20 to the first member, with every link and length of its record. The second member has no round.
fn change_owner(map: &mut ListOrderedMultimap) {
    map.key_index[1] = KeyPlace::new(0);
    map.next_index[0] = ValuePlace::new(1);
    map.next_index[1] = ValuePlace::new(2);
    map.previous_index[2] = ValuePlace::new(1);
    map.previous_index[1] = ValuePlace::new(0);
    map.lengths[0] = 3;
    map.next_index[1025] = ValuePlace::new(1025);
    map.previous_index[1025] = ValuePlace::new(1025);
    map.lengths[1] = 0;
}

// Prints what the check says of the sample once it is damaged. Stands by itself, so that no more than one map is on the stack.
#[inline(never)]
fn damaged<F: FnOnce(&mut ListOrderedMultimap)>(
    rt: &impl Print,
    what: &str,
    damage: F,
) -> io::Result<()>
    requires { F.IsAlwaysCallable damage }
{
    let map = &mut zeros();
    sample(map);
    damage(map);
    let answer = if well_linked::well_linked(map) {
        "yes"
    } else {
        "no"
    };
    println!(rt; "{what}: {answer}")
}

// Damages the list of rounds.
fn rounds(rt: &impl Print) -> io::Result<()> {
    damaged(
        rt,
        "next_value[1024] = 1",
        |map| map.next_value[1024] = ValuePlace::new(1),
    )?;
    damaged(
        rt,
        "next_value[0] = 2",
        |map| map.next_value[0] = ValuePlace::new(2),
    )?;
    damaged(
        rt,
        "next_value[2] = 0",
        |map| map.next_value[2] = ValuePlace::new(0),
    )?;
    damaged(
        rt,
        "previous_value[1024] = 1",
        |map| map.previous_value[1024] = ValuePlace::new(1),
    )?;
    damaged(
        rt,
        "previous_value[0] = 0",
        |map| map.previous_value[0] = ValuePlace::new(0),
    )?;
    damaged(
        rt,
        "previous_value[2] = 0",
        |map| map.previous_value[2] = ValuePlace::new(0),
    )
}

// Damages how many round places are in use and have ever been, and the first freed one.
fn round_counts(rt: &impl Print) -> io::Result<()> {
    damaged(rt, "values_len = 2", |map| map.rounds.len = 2)?;
    damaged(rt, "values_len = 4", |map| map.rounds.len = 4)?;
    damaged(rt, "values_fresh = 2", |map| map.rounds.fresh = 2)?;
    damaged(rt, "values_fresh = 5", |map| map.rounds.fresh = 5)?;
    damaged(rt, "values_free = 0", |map| map.rounds.free = 0)?;
    damaged(rt, "values_free = 4", |map| map.rounds.free = 4)
}

// Damages the list of members.
fn members(rt: &impl Print) -> io::Result<()> {
    damaged(
        rt,
        "next_key[256] = 1",
        |map| map.next_key[256] = KeyPlace::new(1),
    )?;
    damaged(
        rt,
        "next_key[0] = 0",
        |map| map.next_key[0] = KeyPlace::new(0),
    )?;
    damaged(
        rt,
        "next_key[1] = 0",
        |map| map.next_key[1] = KeyPlace::new(0),
    )?;
    damaged(
        rt,
        "previous_key[256] = 0",
        |map| map.previous_key[256] = KeyPlace::new(0),
    )?;
    damaged(
        rt,
        "previous_key[0] = 0",
        |map| map.previous_key[0] = KeyPlace::new(0),
    )?;
    damaged(
        rt,
        "previous_key[1] = 256",
        |map| map.previous_key[1] = KeyPlace::new(256),
    )
}

// Damages the counts of member places.
fn member_counts(rt: &impl Print) -> io::Result<()> {
    damaged(rt, "keys_len = 1", |map| map.members.len = 1)?;
    damaged(rt, "keys_len = 3", |map| map.members.len = 3)?;
    damaged(rt, "keys_fresh = 1", |map| map.members.fresh = 1)?;
    damaged(rt, "keys_fresh = 257", |map| map.members.fresh = 257)?;
    damaged(rt, "keys_free = 1", |map| map.members.free = 1)?;
    damaged(rt, "keys_free = 3", |map| map.members.free = 3)
}

// Puts each limit below what is held, at it, at the highest that a map may have, and above that: no, yes, yes, no.
fn limits(rt: &impl Print) -> io::Result<()> {
    damaged(rt, "keys_limit = 1", |map| map.members.limit = 1)?;
    damaged(rt, "keys_limit = 2", |map| map.members.limit = 2)?;
    damaged(rt, "keys_limit = 256", |map| map.members.limit = 256)?;
    damaged(rt, "keys_limit = 257", |map| map.members.limit = 257)?;
    damaged(rt, "values_limit = 2", |map| map.rounds.limit = 2)?;
    damaged(rt, "values_limit = 3", |map| map.rounds.limit = 3)?;
    damaged(rt, "values_limit = 1024", |map| map.rounds.limit = 1024)?;
    damaged(rt, "values_limit = 1025", |map| map.rounds.limit = 1025)
}

// Damages the member place of the round 20: another one, the freed one, none.
fn owners(rt: &impl Print) -> io::Result<()> {
    damaged(
        rt,
        "key_index[1] = 0",
        |map| map.key_index[1] = KeyPlace::new(0),
    )?;
    damaged(
        rt,
        "key_index[1] = 2",
        |map| map.key_index[1] = KeyPlace::new(2),
    )?;
    damaged(
        rt,
        "key_index[1] = 256",
        |map| map.key_index[1] = KeyPlace::new(256),
    )
}

// Damages the heads and the tails of the records.
fn record_ends(rt: &impl Print) -> io::Result<()> {
    damaged(
        rt,
        "next_index[1024] = 2",
        |map| map.next_index[1024] = ValuePlace::new(2),
    )?;
    damaged(
        rt,
        "previous_index[1024] = 0",
        |map| map.previous_index[1024] = ValuePlace::new(0),
    )?;
    damaged(
        rt,
        "next_index[1025] = 1025",
        |map| map.next_index[1025] = ValuePlace::new(1025),
    )?;
    damaged(
        rt,
        "previous_index[1025] = 0",
        |map| map.previous_index[1025] = ValuePlace::new(0),
    )
}

// Damages the links between the rounds of a record, and the lengths.
fn records(rt: &impl Print) -> io::Result<()> {
    damaged(
        rt,
        "next_index[0] = 1024",
        |map| map.next_index[0] = ValuePlace::new(1024),
    )?;
    damaged(
        rt,
        "next_index[2] = 0",
        |map| map.next_index[2] = ValuePlace::new(0),
    )?;
    damaged(
        rt,
        "previous_index[0] = 2",
        |map| map.previous_index[0] = ValuePlace::new(2),
    )?;
    damaged(
        rt,
        "previous_index[2] = 1024",
        |map| map.previous_index[2] = ValuePlace::new(1024),
    )?;
    damaged(rt, "length[0] = 1", |map| map.lengths[0] = 1)?;
    damaged(rt, "length[1] = 0", |map| map.lengths[1] = 0)
}

// Damages the index, and the member numbers.
fn index_places(rt: &impl Print) -> io::Result<()> {
    damaged(
        rt,
        "index[start(7)] = EMPTY",
        |map| links::put(&mut map.index, index::start(7), index::EMPTY),
    )?;
    damaged(
        rt,
        "index[start(7)] = 1",
        |map| links::put(&mut map.index, index::start(7), 1),
    )?;
    damaged(
        rt,
        "index[start(7)] = 300",
        |map| links::put(&mut map.index, index::start(7), 300),
    )?;
    damaged(
        rt,
        "index[start(8)] = 0",
        |map| links::put(&mut map.index, index::start(8), 0),
    )?;
    damaged(
        rt,
        "index[start(8)] = 2",
        |map| links::put(&mut map.index, index::start(8), 2),
    )?;
    damaged(rt, "keys[0] = 9", |map| map.keys[0] = 9)?;
    damaged(rt, "keys[0] = 8", |map| map.keys[0] = 8)
}

// Changes what a well-linked map may have as well: another round, any counter of T, anything in a place that is not in use.
fn no_damage(rt: &impl Print) -> io::Result<()> {
    damaged(rt, "values[0] = 99", |map| map.values[0] = 99)?;
    damaged(rt, "taken[0] = 0", |map| map.taken[0] = 0)?;
    damaged(rt, "taken[0] = 4294967295", |map| map.taken[0] = 4294967295)?;
    damaged(rt, "taken[15] = 7", |map| map.taken[15] = 7)?;
    damaged(
        rt,
        "next_value[3] = 700",
        |map| map.next_value[3] = ValuePlace::new(700),
    )?;
    damaged(
        rt,
        "key_index[3] = 700",
        |map| map.key_index[3] = KeyPlace::new(700),
    )?;
    damaged(rt, "keys[2] = 7", |map| map.keys[2] = 7)?;
    damaged(rt, "length[2] = 9", |map| map.lengths[2] = 9)?;
    damaged(rt, "values_fresh = 3", |map| map.rounds.fresh = 3)
}
