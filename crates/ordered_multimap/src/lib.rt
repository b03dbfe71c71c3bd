// The calls by value: the map is one record of arrays that goes in and comes back. Every call, a read too, hands the record back beside its
// answer. What every list of them comes to is in proofs/Demand3.antt.

#![tactic(auto)]

pub mod occupied_entry;
pub mod vacant_entry;

ghost use Rattle.std.specs.Prelude.{◌≡◌};
ghost use Rattle.std.specs.Fn.{FnOnceReturnsAtMut};
ghost use Rattle.steps.specs.Call.{lend};
ghost use Rattle.steps.specs.Call as C;
ghost use Rattle.steps.specs.Step.{say, write};
ghost use Rattle.multimap.specs.Making.{Makes};
ghost use Rattle.multimap.specs.WellLinked.{Calls};
ghost use Rattle.answers.specs.Answers.{answer_of, answered, done_of, entry_of, popped_of, round_of};
ghost use Rattle.turn.specs.Turned.{Called};

use answers::{Answer, Entry, Popped, Refusal};
pub use multimap::{Limits, ListOrderedMultimap};

// The map that a call hands back, and what it answers.
#[derive(Clone, Copy)]
pub struct Reply<A> {
    pub map: ListOrderedMultimap,
    pub answer: A,
}

// Makes the empty map with these limits; a refused making gives it with both limits 0.
pub fn new(limits: Limits) -> Reply<Result<(), Refusal>>
    ensures { Makes limits (answered done_of result.answer) result.map }
{
    let map = multimap::new(limits);
    if limits.are_too_high() {
        return Reply {
            map,
            answer: Err(Refusal::LimitsAbove),
        };
    }
    Reply {
        map,
        answer: Ok(()),
    }
}

// Adds a round v of the member k at the back, and says whether k was there.
pub fn append(m: ListOrderedMultimap, poster: u64, k: u64, v: u64) -> Reply<Result<bool, Refusal>>
    ensures { Calls (C.append poster k v) m (say (answered C.present result.answer)) result.map }
{
    by_value(m, |map| adding::append(map, poster, k, v))
}

// Puts a round v in the place of the member's record, whose first round is the answer.
pub fn insert(
    m: ListOrderedMultimap,
    poster: u64,
    k: u64,
    v: u64,
) -> Reply<Result<Option<u64>, Refusal>>
    ensures { Calls (C.insert poster k v) m (say (answered round_of result.answer)) result.map }
{
    by_value(m, |map| inserting::insert(map, poster, k, v))
}

// Puts a round v in the place of the member's record, which is written to the front of `out`.
pub fn insert_all(
    m: ListOrderedMultimap,
    poster: u64,
    k: u64,
    v: u64,
    out: &mut [u64],
) -> Reply<Result<usize, Refusal>>
    ensures { Calls (C.insert_all poster k v out.old) m (write (answered C.count result.answer) out.new) result.map }
{
    let mut map = m;
    let answer = inserting_all::insert_all(&mut map, poster, k, v, out);
    Reply { map, answer }
}

// Makes the member leave with its record, whose first round is the answer.
pub fn remove(m: ListOrderedMultimap, k: u64) -> Reply<Option<u64>>
    ensures { Calls (C.remove k) m (say (round_of result.answer)) result.map }
{
    by_value(m, |map| removing::remove(map, k))
}

// Makes the member leave with its record, which is written to the front of `out`.
pub fn remove_all(m: ListOrderedMultimap, k: u64, out: &mut [u64]) -> Reply<Result<usize, Refusal>>
    ensures { Calls (C.remove_all k out.old) m (write (answered C.count result.answer) out.new) result.map }
{
    let mut map = m;
    let answer = removing::remove_all(&mut map, k, out);
    Reply { map, answer }
}

// Says whether the member is there, for the calls of occupied_entry and vacant_entry.
pub fn entry(m: ListOrderedMultimap, k: u64) -> Reply<Entry>
    ensures { Calls (C.entry k) m (say (entry_of result.answer)) result.map }
{
    let answer = reading::entry(&m, k);
    Reply { map: m, answer }
}

pub fn pop_front(m: ListOrderedMultimap) -> Reply<Option<Popped>>
    ensures { Calls C.pop_front m (say (popped_of result.answer)) result.map }
{
    by_value(m, popping::pop_front)
}

pub fn pop_back(m: ListOrderedMultimap) -> Reply<Option<Popped>>
    ensures { Calls C.pop_back m (say (popped_of result.answer)) result.map }
{
    by_value(m, popping_back::pop_back)
}

// Keeps the pairs with mark 1 and drops those with mark 0.
pub fn retain(m: ListOrderedMultimap, marks: &[u8]) -> Reply<Result<usize, Refusal>>
    ensures { Calls (C.retain marks.now) m (say (answered C.count result.answer)) result.map }
{
    by_value(m, |map| retaining::retain(map, marks))
}

// Moves the i-th pair to round place i and the i-th member to member place i.
pub fn pack_to(m: ListOrderedMultimap, members: u64, rounds: u64) -> Reply<Result<(), Refusal>>
    ensures { Calls (C.pack_to members rounds) m (say (answered done_of result.answer)) result.map }
{
    by_value(m, |map| packing::pack_to(map, members, rounds))
}

pub fn clear(m: ListOrderedMultimap) -> Reply<()>
    ensures { Calls C.clear m (say C.done) result.map }
{
    by_value(m, packing::clear)
}

// Reads the member's first round.
pub fn get(m: ListOrderedMultimap, k: u64) -> Reply<Option<u64>>
    ensures { Calls (C.get k) m (say (round_of result.answer)) result.map }
{
    let answer = reading::get(&m, k);
    Reply { map: m, answer }
}

// Writes the member's rounds, in order, to the front of `out`.
pub fn get_all(m: ListOrderedMultimap, k: u64, out: &mut [u64]) -> Reply<Result<usize, Refusal>>
    ensures { Calls (C.get_all k out.old) m (write (answered C.count result.answer) out.new) result.map }
{
    let answer = reading::get_all(&m, k, out);
    Reply { map: m, answer }
}

pub fn entry_len(m: ListOrderedMultimap, k: u64) -> Reply<usize>
    ensures { Calls (C.entry_len k) m (say (C.count result.answer)) result.map }
{
    let answer = reading::entry_len(&m, k);
    Reply { map: m, answer }
}

pub fn contains_key(m: ListOrderedMultimap, k: u64) -> Reply<bool>
    ensures { Calls (C.contains_key k) m (say (C.present result.answer)) result.map }
{
    let answer = reading::contains_key(&m, k);
    Reply { map: m, answer }
}

// Writes the members, in joining order, to the front of `out`.
pub fn keys(m: ListOrderedMultimap, out: &mut [u64]) -> Reply<Result<usize, Refusal>>
    ensures { Calls (C.keys out.old) m (write (answered C.count result.answer) out.new) result.map }
{
    let answer = reading::keys(&m, out);
    Reply { map: m, answer }
}

pub fn keys_len(m: ListOrderedMultimap) -> Reply<usize>
    ensures { Calls C.keys_len m (say (C.count result.answer)) result.map }
{
    let answer = reading::keys_len(&m);
    Reply { map: m, answer }
}

pub fn values_len(m: ListOrderedMultimap) -> Reply<usize>
    ensures { Calls C.values_len m (say (C.count result.answer)) result.map }
{
    let answer = reading::values_len(&m);
    Reply { map: m, answer }
}

// Writes the pairs in global order: the members to the front of `members`, and the rounds to the front of `rounds`.
pub fn iter(
    m: ListOrderedMultimap,
    members: &mut [u64],
    rounds: &mut [u64],
) -> Reply<Result<usize, Refusal>>
    ensures { Calls (C.iter members.old rounds.old) m (record { answer = answered C.count result.answer; slices = lend members.new rounds.new }) result.map }
{
    let answer = reading::iter(&m, members, rounds);
    Reply { map: m, answer }
}

// Writes how many rounds were ever taken in, of each of the sixteen posters.
pub fn taken(m: ListOrderedMultimap, out: &mut [u64; 16]) -> Reply<usize>
    ensures { Calls (C.taken out.old) m (write (C.count result.answer) out.new) result.map }
{
    let answer = reading::taken(&m, out);
    Reply { map: m, answer }
}

// Makes the call with the number `op`; from 24 on that is `values_len`.
pub fn call(
    m: ListOrderedMultimap,
    op: u64,
    poster: u64,
    k: u64,
    v: u64,
    out: &mut [u64],
    out2: &mut [u64],
    marks: &[u8],
) -> Reply<Result<Answer, Refusal>>
    ensures { Called op poster k v m result.map out.old out2.old marks.now out.new out2.new (answered answer_of result.answer) }
{
    let mut map = m;
    let answer = turn::call(&mut map, op, poster, k, v, out, out2, marks);
    Reply { map, answer }
}

// Makes one call on the map that came, and hands it back beside the answer. A call that is lent a slice to write to goes without it, since nothing is
// known of what a closure has written to such a slice; and so does a read, which hands on the record that came.
fn by_value<A, F: FnOnce(&mut ListOrderedMultimap) -> A>(
    m: ListOrderedMultimap,
    call: F,
) -> Reply<A>
    requires { (r : _) → r.now ≡ m → F.pre call r }
    ensures { FnOnceReturnsAtMut F.FnOnce call m result.answer result.map }
{
    let mut map = m;
    let answer = call(&mut map);
    Reply { map, answer }
}
