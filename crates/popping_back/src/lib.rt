// The call that takes the last round out, in place. It has a crate of its own for the reason that `popping` gives.

#![tactic(auto)]

ghost use Rattle.answers.specs.Answers.{popped_of};
ghost use Rattle.steps.specs.Call as C;
ghost use Rattle.steps.specs.Step.{say};
ghost use Rattle.multimap.specs.WellLinked.{Calls};

use answers::Popped;
use links::Place;
use multimap::{ListOrderedMultimap, ROUNDS, ValuePlace};

// Takes the last round out.
pub fn pop_back(map: &mut ListOrderedMultimap) -> Option<Popped>
    ensures { Calls C.pop_back map.old (say (popped_of result)) map.new }
{
    let last = links::after(&map.previous_value, ValuePlace::new(ROUNDS));
    popping::pop(map, last)
}
