// The calls that only read. What each answers and writes is the step's of every well-linked map that has the arrays which it reads; no function has
// a premise.

#![tactic(auto)]

ghost use Rattle.std.specs.Prelude.{◌≡◌};
ghost use Rattle.answers.specs.Answers.{answered, entry_of, round_of};
ghost use Rattle.steps.specs.Call as C;
ghost use Rattle.steps.specs.Step.{say, write};
ghost use Rattle.reading.specs.Reads.{Reads, pairs_written};
ghost use Rattle.reading.specs.Entry.{entry_in};

use answers::{Entry, Refusal};
use index::Found;
use multimap::ListOrderedMultimap;

// Gives the member's first round.
pub fn get(map: &ListOrderedMultimap, k: u64) -> Option<u64>
    ensures { Reads (C.get k) (say (round_of result)) map.now }
{
    let Found::At(_, key, _) = map.find(k) else {
        return None;
    };
    Some(map.round(map.head(key)))
}

// Writes the member's rounds, in order, to the front of `out`, and says how many.
pub fn get_all(map: &ListOrderedMultimap, k: u64, out: &mut [u64]) -> Result<usize, Refusal>
    ensures { Reads (C.get_all k out.old) (write (answered C.count result) out.new) map.now }
{
    let Found::At(_, key, _) = map.find(k) else {
        return Ok(0);
    };
    copying::copy(
        &map.values,
        &map.next_index,
        map.head(key),
        map.size(key),
        out,
    )
}

// Gives the member's entry.
pub fn entry(map: &ListOrderedMultimap, k: u64) -> Entry
    ensures found { entry_of result ≡ entry_in map.now k }
    ensures reads { Reads (C.entry k) (say (entry_of result)) map.now }
{
    match map.find(k) {
        Found::At(_, key, _) => Entry::Occupied(map.size(key) as usize),
        Found::Absent(_, _) => Entry::Vacant(k),
    }
}

// Says how many rounds the member has.
pub fn entry_len(map: &ListOrderedMultimap, k: u64) -> usize
    ensures { Reads (C.entry_len k) (say (C.count result)) map.now }
{
    match entry(map, k) {
        Entry::Occupied(n) => n,
        Entry::Vacant(_) => 0,
    }
}

// Says whether the number is a member.
pub fn contains_key(map: &ListOrderedMultimap, k: u64) -> bool
    ensures { Reads (C.contains_key k) (say (C.present result)) map.now }
{
    matches!(entry(map, k), Entry::Occupied(_))
}

// Writes the members, in joining order, to the front of `out`, and says how many.
pub fn keys(map: &ListOrderedMultimap, out: &mut [u64]) -> Result<usize, Refusal>
    ensures { Reads (C.keys out.old) (write (answered C.count result) out.new) map.now }
{
    copying::copy(
        &map.keys,
        &map.next_key,
        map.first_member(),
        map.members.len,
        out,
    )
}

// Says how many members there are.
pub fn keys_len(map: &ListOrderedMultimap) -> usize
    ensures { Reads C.keys_len (say (C.count result)) map.now }
{
    map.members.len as usize
}

// Says how many rounds there are.
pub fn values_len(map: &ListOrderedMultimap) -> usize
    ensures { Reads C.values_len (say (C.count result)) map.now }
{
    map.rounds.len as usize
}

// Writes the pairs in global order, their members and their rounds to the fronts of two slices, and says how many.
pub fn iter(
    map: &ListOrderedMultimap,
    members: &mut [u64],
    rounds: &mut [u64],
) -> Result<usize, Refusal>
    ensures { Reads (C.iter members.old rounds.old) (pairs_written (answered C.count result) members.new rounds.new) map.now }
{
    let places = map.round_places();
    let end = places.len();
    if members.len() < end || rounds.len() < end {
        return Err(Refusal::Short);
    }
    // Goes by the rank, since a proof knows nothing of what is written through a `zip` of `iter_mut`.
    for (i, x) in places.enumerate() {
        members[i] = map.member(map.owner(x));
        rounds[i] = map.round(x);
    }
    Ok(end)
}

// Writes how many rounds were ever taken in, of each of the sixteen posters, and says that they are sixteen.
pub fn taken(map: &ListOrderedMultimap, out: &mut [u64; 16]) -> usize
    ensures { Reads (C.taken out.old) (write (C.count result) out.new) map.now }
{
    write_counters(map, out)
}

// Writes the same to a slice, as many as it holds, and says how many.
pub fn write_counters(map: &ListOrderedMultimap, out: &mut [u64]) -> usize
    ensures { Reads (C.taken out.old) (write (C.count result) out.new) map.now }
{
    let counters: &[u32] = &map.taken;
    let end = out.len().min(counters.len());
    // Goes by an index, for the reason that `iter` has.
    for i in 0..end {
        out[i] = counters[i] as u64;
    }
    end
}
