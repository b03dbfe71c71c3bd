// What C and Rust call of the map: each export makes the call of its name and tells its answer by four numbers, since C has no enum with values;
// `om_well_linked` gives 1 or 0, and `replay` how many calls it ran. A map is lent by a pointer to the record; `om_turn` takes the record by value.
// The C interface gives a map's two limits one by one.

#![tactic(auto)]

ghost use Rattle.std.specs.Prelude.{[]};
ghost use Rattle.steps.specs.State.{limit};
ghost use Rattle.steps.specs.Call as C;
ghost use Rattle.multimap.specs.Making.{Made};
ghost use Rattle.multimap.specs.WellLinked.{CallsTold, WellLinked};
ghost use Rattle.reading.specs.Reads.{ReadsTold};
ghost use Rattle.turn.specs.Turned.{Turned};
ghost use Rattle.replay.specs.Played.{Played};
ghost use Rattle.image.specs.Answers.{ImagedTold, Restores};
ghost use Rattle.well_linked.specs.Told.{Tells};
ghost use Rattle.multimap.specs.declared.ListOrderedMultimap.{ListOrderedMultimap};

use answers::Refusal;
use multimap::{Limits, ListOrderedMultimap};

// Makes the empty map with these limits, whatever the arrays hold; a refused making leaves it with both limits 0.
#[unsafe(no_mangle)]
pub extern "C" fn om_new(
    map: &mut ListOrderedMultimap,
    members_limit: u64,
    rounds_limit: u64,
    answer: &mut [u64; 4],
)
    ensures { Made (limit members_limit rounds_limit) map.new answer.new }
{
    let limits = Limits {
        members: members_limit,
        rounds: rounds_limit,
    };
    answers::tell(answer, packing::new(map, limits));
}

// Empties the map, which stays as it is where it holds no round: then it has no member either. T stays.
#[unsafe(no_mangle)]
pub extern "C" fn om_clear(map: &mut ListOrderedMultimap, answer: &mut [u64; 4])
    ensures { CallsTold C.clear map.old map.new [] [] answer.new }
{
    packing::clear(map);
    answers::tell(answer, Ok::<_, Refusal>(()));
}

// Moves the i-th pair to the round place i, and the i-th member to the member place i.
#[unsafe(no_mangle)]
pub extern "C" fn om_pack_to(
    map: &mut ListOrderedMultimap,
    keys_minimum: u64,
    values_minimum: u64,
    answer: &mut [u64; 4],
)
    ensures { CallsTold (C.pack_to keys_minimum values_minimum) map.old map.new [] [] answer.new }
{
    answers::tell(answer, packing::pack_to(map, keys_minimum, values_minimum));
}

// Adds the round v of the member k at the back, for the poster; a new member joins at the back. The answer is whether k was present.
#[unsafe(no_mangle)]
pub extern "C" fn om_append(
    map: &mut ListOrderedMultimap,
    poster: u64,
    k: u64,
    v: u64,
    answer: &mut [u64; 4],
)
    ensures { CallsTold (C.append poster k v) map.old map.new [] [] answer.new }
{
    answers::tell(answer, adding::append(map, poster, k, v));
}

// Puts the round v in the place of the member's record; a new member joins at the back. The answer is the old record's first round, or none.
#[unsafe(no_mangle)]
pub extern "C" fn om_insert(
    map: &mut ListOrderedMultimap,
    poster: u64,
    k: u64,
    v: u64,
    answer: &mut [u64; 4],
)
    ensures { CallsTold (C.insert poster k v) map.old map.new [] [] answer.new }
{
    answers::tell(answer, inserting::insert(map, poster, k, v));
}

// Puts the round v in the place of the member's record, which is written, in order, to the front of `out`; a new member joins at the back.
// The answer is how long the record was.
#[unsafe(no_mangle)]
pub extern "C" fn om_insert_all(
    map: &mut ListOrderedMultimap,
    poster: u64,
    k: u64,
    v: u64,
    out: &mut [u64],
    answer: &mut [u64; 4],
)
    ensures { CallsTold (C.insert_all poster k v out.old) map.old map.new out.new [] answer.new }
{
    answers::tell(answer, inserting_all::insert_all(map, poster, k, v, out));
}

// Takes the rounds of the member k out, and it with them; tells the first of them.
#[unsafe(no_mangle)]
pub extern "C" fn om_remove(map: &mut ListOrderedMultimap, k: u64, answer: &mut [u64; 4])
    ensures { CallsTold (C.remove k) map.old map.new [] [] answer.new }
{
    answers::tell(answer, Ok::<_, Refusal>(removing::remove(map, k)));
}

// Takes the rounds of the member k out, and it with them; writes them to the front of `out` and tells how many.
#[unsafe(no_mangle)]
pub extern "C" fn om_remove_all(
    map: &mut ListOrderedMultimap,
    k: u64,
    out: &mut [u64],
    answer: &mut [u64; 4],
)
    ensures { CallsTold (C.remove_all k out.old) map.old map.new out.new [] answer.new }
{
    answers::tell(answer, removing::remove_all(map, k, out));
}

// Takes the first round out.
#[unsafe(no_mangle)]
pub extern "C" fn om_pop_front(map: &mut ListOrderedMultimap, answer: &mut [u64; 4])
    ensures { CallsTold C.pop_front map.old map.new [] [] answer.new }
{
    answers::tell(answer, Ok::<_, Refusal>(popping::pop_front(map)));
}

// Takes the last round out.
#[unsafe(no_mangle)]
pub extern "C" fn om_pop_back(map: &mut ListOrderedMultimap, answer: &mut [u64; 4])
    ensures { CallsTold C.pop_back map.old map.new [] [] answer.new }
{
    answers::tell(answer, Ok::<_, Refusal>(popping_back::pop_back(map)));
}

// Takes the rounds out whose mark is 0, and the members with no other round; tells how many rounds are kept.
#[unsafe(no_mangle)]
pub extern "C" fn om_retain(map: &mut ListOrderedMultimap, marks: &[u8], answer: &mut [u64; 4])
    ensures { CallsTold (C.retain marks.now) map.old map.new [] [] answer.new }
{
    answers::tell(answer, retaining::retain(map, marks));
}

// Adds a further round v of the member k at the back.
#[unsafe(no_mangle)]
pub extern "C" fn om_occupied_append(
    map: &mut ListOrderedMultimap,
    poster: u64,
    k: u64,
    v: u64,
    answer: &mut [u64; 4],
)
    ensures { CallsTold (C.occupied_append poster k v) map.old map.new [] [] answer.new }
{
    answers::tell(answer, entries::occupied_append(map, poster, k, v));
}

// Puts the round v in the place of the member's record. The answer is the old record's first round.
#[unsafe(no_mangle)]
pub extern "C" fn om_occupied_insert(
    map: &mut ListOrderedMultimap,
    poster: u64,
    k: u64,
    v: u64,
    answer: &mut [u64; 4],
)
    ensures { CallsTold (C.occupied_insert poster k v) map.old map.new [] [] answer.new }
{
    answers::tell(answer, entries::occupied_insert(map, poster, k, v));
}

// Takes the member k out with its record. The answer is the record's first round.
#[unsafe(no_mangle)]
pub extern "C" fn om_occupied_remove_entry(
    map: &mut ListOrderedMultimap,
    k: u64,
    answer: &mut [u64; 4],
)
    ensures { CallsTold (C.occupied_remove_entry k) map.old map.new [] [] answer.new }
{
    answers::tell(answer, entries::occupied_remove_entry(map, k));
}

// Lets the new member k join with its first round v.
#[unsafe(no_mangle)]
pub extern "C" fn om_vacant_insert(
    map: &mut ListOrderedMultimap,
    poster: u64,
    k: u64,
    v: u64,
    answer: &mut [u64; 4],
)
    ensures { CallsTold (C.vacant_insert poster k v) map.old map.new [] [] answer.new }
{
    answers::tell(answer, entries::vacant_insert(map, poster, k, v));
}

// Tells the member's first round.
#[unsafe(no_mangle)]
pub extern "C" fn om_get(map: &ListOrderedMultimap, k: u64, answer: &mut [u64; 4])
    ensures { ReadsTold (C.get k) map.now [] [] answer.new }
{
    answers::tell(answer, Ok::<_, Refusal>(reading::get(map, k)));
}

// Writes the member's rounds, in order, to the front of `out`, and tells how many.
#[unsafe(no_mangle)]
pub extern "C" fn om_get_all(
    map: &ListOrderedMultimap,
    k: u64,
    out: &mut [u64],
    answer: &mut [u64; 4],
)
    ensures { ReadsTold (C.get_all k out.old) map.now out.new [] answer.new }
{
    answers::tell(answer, reading::get_all(map, k, out));
}

// Tells the member's entry.
#[unsafe(no_mangle)]
pub extern "C" fn om_entry(map: &ListOrderedMultimap, k: u64, answer: &mut [u64; 4])
    ensures { ReadsTold (C.entry k) map.now [] [] answer.new }
{
    answers::tell(answer, Ok::<_, Refusal>(reading::entry(map, k)));
}

// Tells how many rounds the member has.
#[unsafe(no_mangle)]
pub extern "C" fn om_entry_len(map: &ListOrderedMultimap, k: u64, answer: &mut [u64; 4])
    ensures { ReadsTold (C.entry_len k) map.now [] [] answer.new }
{
    answers::tell(answer, Ok::<_, Refusal>(reading::entry_len(map, k)));
}

// Tells whether the number is a member.
#[unsafe(no_mangle)]
pub extern "C" fn om_contains_key(map: &ListOrderedMultimap, k: u64, answer: &mut [u64; 4])
    ensures { ReadsTold (C.contains_key k) map.now [] [] answer.new }
{
    answers::tell(answer, Ok::<_, Refusal>(reading::contains_key(map, k)));
}

// Writes the members, in joining order, to the front of `out`, and tells how many.
#[unsafe(no_mangle)]
pub extern "C" fn om_keys(map: &ListOrderedMultimap, out: &mut [u64], answer: &mut [u64; 4])
    ensures { ReadsTold (C.keys out.old) map.now out.new [] answer.new }
{
    answers::tell(answer, reading::keys(map, out));
}

// Tells how many members there are.
#[unsafe(no_mangle)]
pub extern "C" fn om_keys_len(map: &ListOrderedMultimap, answer: &mut [u64; 4])
    ensures { ReadsTold C.keys_len map.now [] [] answer.new }
{
    answers::tell(answer, Ok::<_, Refusal>(reading::keys_len(map)));
}

// Tells how many rounds there are.
#[unsafe(no_mangle)]
pub extern "C" fn om_values_len(map: &ListOrderedMultimap, answer: &mut [u64; 4])
    ensures { ReadsTold C.values_len map.now [] [] answer.new }
{
    answers::tell(answer, Ok::<_, Refusal>(reading::values_len(map)));
}

// Writes the pairs in global order, the members to the front of `out` and the rounds to that of `out2`, and tells how many.
#[unsafe(no_mangle)]
pub extern "C" fn om_iter(
    map: &ListOrderedMultimap,
    out: &mut [u64],
    out2: &mut [u64],
    answer: &mut [u64; 4],
)
    ensures { ReadsTold (C.iter out.old out2.old) map.now out.new out2.new answer.new }
{
    answers::tell(answer, reading::iter(map, out, out2));
}

// Writes how many rounds were ever taken in, of each of the sixteen posters, and tells that they are sixteen.
#[unsafe(no_mangle)]
pub extern "C" fn om_taken(map: &ListOrderedMultimap, out: &mut [u64; 16], answer: &mut [u64; 4])
    ensures { ReadsTold (C.taken out.old) map.now out.new [] answer.new }
{
    answers::tell(answer, Ok::<_, Refusal>(reading::taken(map, out)));
}

// Makes the call with the number `op`; from 24 on that is `values_len`. `poster`, `k` and `v` are its arguments.
// A slice that it does not have is left as it is.
#[unsafe(no_mangle)]
pub extern "C" fn om_call(
    map: &mut ListOrderedMultimap,
    op: u64,
    poster: u64,
    k: u64,
    v: u64,
    out: &mut [u64],
    out2: &mut [u64],
    marks: &[u8],
    answer: &mut [u64; 4],
)
    ensures { Turned op poster k v map.old map.new out.old out2.old marks.now out.new out2.new answer.new }
{
    answers::tell(answer, turn::call(map, op, poster, k, v, out, out2, marks));
}

// Makes the call with the number `op` on a map that goes in and comes back; from 24 on that is `values_len`. `answer` gets the answer's four numbers.
#[unsafe(no_mangle)]
pub extern "C" fn om_turn(
    m: ListOrderedMultimap,
    op: u64,
    poster: u64,
    k: u64,
    v: u64,
    out: &mut [u64],
    out2: &mut [u64],
    marks: &[u8],
    answer: &mut [u64; 4],
) -> ListOrderedMultimap
    ensures { Turned op poster k v m result out.old out2.old marks.now out.new out2.new answer.new }
{
    let mut map = m;
    answers::tell(
        answer,
        turn::call(&mut map, op, poster, k, v, out, out2, marks),
    );
    map
}

// Runs the calls that the slices hold, on the map that `om_new` makes with these limits. The out slices, and after each call its answer, are written
// to `outs`, `outs2` and `answers`. A list that is cut off or holds what is no call is run up to there. The answer is how many calls were run.
#[unsafe(no_mangle)]
pub extern "C" fn replay(
    members_limit: u64,
    rounds_limit: u64,
    calls: &[u64],
    outs: &mut [u64],
    outs2: &mut [u64],
    marks: &[u8],
    answers: &mut [u64],
) -> u64
    ensures { (m : ListOrderedMultimap) × Played (limit members_limit rounds_limit) calls.now outs.old outs2.old marks.now answers.old outs.new outs2.new answers.new m result }
{
    let limits = Limits {
        members: members_limit,
        rounds: rounds_limit,
    };
    replay::replay(limits, calls, outs, outs2, marks, answers)
}

// Writes the image of the map to the front of `out`.
#[unsafe(no_mangle)]
pub extern "C" fn om_write_image(map: &ListOrderedMultimap, out: &mut [u8], answer: &mut [u64; 4])
    ensures { ImagedTold map.now out.old out.new answer.new }
{
    answers::tell(answer, image::write_image(map, out));
}

// Reads an image into these limits, whatever the arrays hold; a refused reading leaves the map that `om_new` makes with them.
#[unsafe(no_mangle)]
pub extern "C" fn om_read_image(
    map: &mut ListOrderedMultimap,
    members_limit: u64,
    rounds_limit: u64,
    bytes: &[u8],
    answer: &mut [u64; 4],
)
    ensures { Restores (limit members_limit rounds_limit) bytes.now map.new answer.new }
{
    let limits = Limits {
        members: members_limit,
        rounds: rounds_limit,
    };
    answers::tell(answer, image::read_image(map, limits, bytes));
}

// Says whether a map is well-linked by a number: 1 for yes, 0 for no.
#[unsafe(no_mangle)]
pub extern "C" fn om_well_linked(map: &ListOrderedMultimap) -> u64
    ensures { Tells result (WellLinked map.now) }
{
    well_linked::well_linked(map) as u64
}
