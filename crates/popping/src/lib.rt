// The call that takes the first round out, in place; and `pop`, by which either end's round is taken out. Each pop has a crate of its own: where
// crates are compiled one by one, each has then one call of `pop`, and the compiler puts it in, and `changing::leave` with it.
// In the static library, which is compiled as a whole, `leave` stays a function that both call.

#![tactic(auto)]

ghost use Rattle.std.specs.Prelude.{◌≡◌, Bool, cond};
ghost use Rattle.answers.specs.Answers.{popped_of};
ghost use Rattle.steps.specs.Call as C;
ghost use Rattle.steps.specs.Step.{say};
ghost use Rattle.links.specs.Stores.{at};
ghost use Rattle.multimap.specs.Popping.{pop_of};
ghost use Rattle.multimap.specs.WellLinked.{Calls};

use answers::Popped;
use multimap::{ListOrderedMultimap, ValuePlace};

// Takes the first round out.
pub fn pop_front(map: &mut ListOrderedMultimap) -> Option<Popped>
    ensures { Calls C.pop_front map.old (say (popped_of result)) map.new }
{
    let first = map.first_round();
    pop(map, first)
}

// Takes the round in the place x out, which is the first or the last, where there is one.
pub fn pop(map: &mut ListOrderedMultimap, x: ValuePlace) -> Option<Popped>
    ensures { (b : Bool) → x ≡ cond b (at map.old.next_value 1024) (at map.old.previous_value 1024) → Calls (pop_of b) map.old (say (popped_of result)) map.new }
{
    if map.rounds.len == 0 {
        return None;
    }
    let key = map.owner(x);
    Some(Popped {
        member: map.member(key),
        round: map.round(x),
        gone: changing::leave(map, x),
    })
}
