// `retain` in place: one walk along the list of rounds, which ends with the last round that leaves.

#![tactic(auto)]

ghost use Rattle.std.specs.Prelude.{◌≡◌, ◌≢◌, ◌≤◌, ◌<◌, ◌||◌, ℕ, eqb, length, not, slice_index};
ghost use Rattle.answers.specs.Answers.{answered};
ghost use Rattle.steps.specs.Lists.{all};
ghost use Rattle.steps.specs.Call as C;
ghost use Rattle.steps.specs.Step.{say};
ghost use Rattle.links.specs.Stores.{at};
ghost use Rattle.multimap.specs.WellLinked.{Calls};
ghost use Rattle.retaining.specs.Thin.{Thinned};

use answers::Refusal;
use links::Place;
use multimap::{ListOrderedMultimap, ROUNDS, ValuePlace};

// How many marks are tested at once for a 0.
const BLOCK: usize = 64;

// Takes the rounds out whose mark is 0, and the members with no other round; answers how many rounds are kept. Takes bytes as marks, which C and
// lists of calls lend, and refuses one that is neither 0 nor 1.
#[tactic(auto, using(crate::proofs::Thins::does_count, crate::proofs::Thins::does_value, crate::proofs::Thins::does_retain))]
pub fn retain(map: &mut ListOrderedMultimap, marks: &[u8]) -> Result<usize, Refusal>
    ensures { Calls (C.retain marks.now) map.old (say (answered C.count result)) map.new }
{
    if marks.len() != map.rounds.len as usize {
        return Err(Refusal::MarksCount);
    }
    if !are_marks(marks) {
        return Err(Refusal::MarkValue);
    }
    thin(map, marks);
    Ok(map.rounds.len as usize)
}

// Says whether each mark is 0 or 1. Tests them all, and doesn't end at the first that is neither, so that the compiler takes many at a time.
fn are_marks(marks: &[u8]) -> bool
    ensures { result ≡ all (λ m. eqb 0 m || eqb 1 m) marks.now }
{
    marks
        .iter()
        .fold(true, |fine, &mark| fine & (mark == 0 || mark == 1))
}

// Takes the rounds out whose mark is 0. The walk ends with the last of them.
fn thin(map: &mut ListOrderedMultimap, marks: &[u8])
    ensures { Thinned marks.now (at map.old.next_value 1024) map.old map.new }
{
    // Goes along the links by hand, since it changes them as it goes: an iterator along them would hold the map lent.
    // Reads the first place as the walk reads the next one: with `first_round` here the search does not prove a turn.
    let mut x = links::after(&map.next_value, ValuePlace::new(ROUNDS));
    for &mark in &marks[..past_last_zero(marks)] {
        let next = links::after(&map.next_value, x);
        if mark == 0 {
            changing::leave(map, x);
        }
        x = next;
    }
}

// Gives the place past the last mark 0, and 0 where there is none.
fn past_last_zero(marks: &[u8]) -> usize
    ensures inside { result ≤ length marks.now }
    ensures past { (k : ℕ) → result ≤ k → k < length marks.now → slice_index marks.now k ≢ 0 }
{
    marks[..before_kept_blocks(marks)]
        .iter()
        .rposition(|&mark| mark == 0)
        .map_or(0, |last| last + 1)
}

// Gives the place at which the blocks at the back begin that have no mark 0.
// Goes by a place: of an iterator over blocks from the back it would be worked out from how many of them were given.
fn before_kept_blocks(marks: &[u8]) -> usize
    ensures inside { result ≤ length marks.now }
    ensures past { (k : ℕ) → result ≤ k → k < length marks.now → slice_index marks.now k ≢ 0 }
{
    let mut end = marks.len();
    while BLOCK <= end && has_no_zero(&marks[end - BLOCK..end]) {
        end -= BLOCK;
    }
    end
}

// Says whether no mark is 0. Tests them all, as `are_marks` does.
fn has_no_zero(marks: &[u8]) -> bool
    ensures { result ≡ all (λ m. not (eqb 0 m)) marks.now }
{
    marks.iter().fold(true, |kept, &mark| kept & (mark != 0))
}
