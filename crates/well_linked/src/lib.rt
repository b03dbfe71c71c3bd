// The well-linked check, for whatever a map's arrays hold: linear passes over the lists, the chains and the index. The public function has no
// premise.

#![tactic(auto)]

ghost use Rattle.std.specs.Prelude.{◌≤◌, ◌<◌, [], length, map};
ghost use Rattle.index.specs.Agree.{Decides};
ghost use Rattle.links.specs.Route.{walk, Route};
ghost use Rattle.links.specs.Places.{Linked};
ghost use Rattle.multimap.specs.Map.{rounds_of, members_of};
ghost use Rattle.multimap.specs.WellLinked.{WellLinked};
ghost use Rattle.well_linked.specs.Bounds.{Bounded};
ghost use Rattle.well_linked.specs.Chains.{Begun, Walked, Ends, End, Records};
ghost use Rattle.well_linked.specs.Marks.{Marks, place_at, list_of};

use index::KeyPlace;
use links::{Counts, Place, Walk};
use multimap::{ListOrderedMultimap, MEMBERS, ROUNDS, ValuePlace};
use std::array;

// Says whether a map is well-linked.
pub fn well_linked(map: &ListOrderedMultimap) -> bool
    ensures { Decides result (WellLinked map.now) }
{
    is_bounded(*map) && lists_linked(map) && members_linked(map)
}

// Says whether a map keeps its bounds. A map by value has in its type how long its arrays are and what a counter is at most; so the limits are left.
fn is_bounded(map: ListOrderedMultimap) -> bool
    ensures { Decides result (Bounded map) }
{
    is_limited(&map.rounds, ROUNDS) && is_limited(&map.members, MEMBERS)
}

// Says whether the list of rounds and the list of members are linked.
fn lists_linked(map: &ListOrderedMultimap) -> bool
    ensures { Decides result (Linked (rounds_of map.now) × Linked (members_of map.now)) }
{
    list_linked(
        &map.next_value,
        &map.previous_value,
        ValuePlace::new(ROUNDS),
        &map.rounds,
    ) && list_linked(
        &map.next_key,
        &map.previous_key,
        KeyPlace::new(MEMBERS),
        &map.members,
    )
}

// Says whether a list's limit is at most `most`, and no more places are in use.
fn is_limited(counts: &Counts, most: u16) -> bool
    ensures { Decides result ((counts.now.limit ≤ most) × (counts.now.len ≤ counts.now.limit)) }
{
    counts.limit <= most && counts.len <= counts.limit
}

// Says whether a list of places is linked that begins and ends at the cell `root`.
fn list_linked<P: Place>(next: &[P], previous: &[P], root: P, counts: &Counts) -> bool
    requires { P.number root ≤ 1024 }
    ensures { Decides result (Linked (list_of P.number P.of next.now previous.now root counts.now)) }
{
    let Counts { len, fresh, .. } = *counts;
    let free = P::new(counts.free);
    if fresh < len || root.index() < fresh as usize {
        return false;
    }
    let mut met = [false; 1024];
    let first = links::after(next, root);
    if !mark(links::along(next, first, len), fresh, &mut met) {
        return false;
    }
    if !mark(links::along(next, free, fresh - len), fresh, &mut met) {
        return false;
    }
    both_ways(next, previous, root, len)
}

// Marks each of the places: no, where one is not below `fresh` or is marked before it is met.
fn mark<P: Place>(places: Walk<'_, P>, fresh: u16, met: &mut [bool]) -> bool
    requires { fresh ≤ length met.old }
    ensures { Marks fresh (map P.number places.entry) met.old met.new result }
{
    for place in places {
        let q = place.index();
        if fresh as usize <= q {
            return false;
        }
        if met[q] {
            return false;
        }
        met[q] = true;
    }
    true
}

// Says whether `previous` leads back along the `many` places that follow the end cell `root` by `next`, and the last of them leads to it.
fn both_ways<P: Place>(next: &[P], previous: &[P], root: P, many: u16) -> bool
    ensures { Decides result (Route (place_at P.number P.of next.now) (place_at P.number P.of previous.now) (P.number root)
        (walk (place_at P.number P.of next.now) (place_at P.number P.of next.now (P.number root)) many) (P.number root)) }
{
    let mut before = root;
    for here in links::along(next, links::after(next, root), many) {
        let back = links::after(previous, here);
        if back.index() != before.index() {
            return false;
        }
        before = here;
    }
    neighbours(next, previous, before, root)
}

// Says whether `next` leads from the cell a to the cell b, and `previous` back. Compares numbers, since a kind of place promises no equality.
fn neighbours<P: Place>(next: &[P], previous: &[P], a: P, b: P) -> bool
    ensures { Decides result (Route (place_at P.number P.of next.now) (place_at P.number P.of previous.now) (P.number a) [] (P.number b)) }
{
    links::after(next, a).index() == b.index() && links::after(previous, b).index() == a.index()
}

// Says whether the members' records and the index are right too of a map that keeps its bounds and whose two lists are linked.
fn members_linked(map: &ListOrderedMultimap) -> bool
    requires bounded { Bounded map.now }
    requires linked { Linked (rounds_of map.now) × Linked (members_of map.now) }
    ensures { Decides result (WellLinked map.now) }
{
    // The member places in use: as the list is linked, each is met once.
    let mut used = [false; 256];
    mark(map.member_places(), map.members.fresh, &mut used);
    chains_linked(map, &used) && index::agrees(&map.index, &map.keys, &used)
}

// Says whether each round has a member place in use, and each of these a chain of its rounds, its length and at least one round.
fn chains_linked(map: &ListOrderedMultimap, used: &[bool; 256]) -> bool
    ensures { Decides result (Records map.now used.now) }
{
    let Some(chains) = follow_chains(map, used) else {
        return false;
    };
    ends_meet(map, used, &chains)
}

// The chain of a member place, as far as it is followed: its last cell, and its number of rounds.
#[derive(Clone, Copy)]
struct Chain {
    last: ValuePlace,
    rounds: u16,
}

// Gives the chains before any round is followed: each is at the cell at which it begins.
fn begin() -> [Chain; 256]
    ensures { Begun result }
{
    array::from_fn(|key| Chain {
        last: multimap::base(KeyPlace::new(key as u16)),
        rounds: 0,
    })
}

// Follows the rounds in order: each joins the chain of its member place. Nothing, where a round's member place is not in use or the links
// between the round and the last cell of that chain are others.
fn follow_chains(map: &ListOrderedMultimap, used: &[bool; 256]) -> Option<[Chain; 256]>
    ensures { Walked map.now used.now result }
{
    let mut chains = begin();
    for here in map.round_places() {
        let k = map.owner(here).index();
        if MEMBERS as usize <= k {
            return None;
        }
        let in_use = used[k];
        if !in_use {
            return None;
        }
        let chain = chains[k];
        if !neighbours(&map.next_index, &map.previous_index, chain.last, here) {
            return None;
        }
        chains[k] = Chain {
            last: here,
            rounds: chain.rounds + 1,
        };
    }
    Some(chains)
}

// Says whether each chain of a member place in use ends at its base, and its length is its number of rounds, of which there are some.
fn ends_meet(map: &ListOrderedMultimap, used: &[bool; 256], chains: &[Chain; 256]) -> bool
    ensures { Decides result (Ends map.now used.now chains.now) }
{
    chains.iter().enumerate().all(|(k, chain)| !used[k]
        || end_meets(map, KeyPlace::new(k as u16), *chain))
}

// Says so of one chain.
fn end_meets(map: &ListOrderedMultimap, key: KeyPlace, chain: Chain) -> bool
    requires { key < 256 }
    ensures { Decides result (End map.now chain key) }
{
    let long = map.size(key);
    neighbours(
        &map.next_index,
        &map.previous_index,
        chain.last,
        multimap::base(key),
    ) && long == chain.rounds
        && chain.rounds != 0
}
