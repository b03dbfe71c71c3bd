// The call of the Rust crate's `VacantEntry`. It is refused where the member is there.
ghost use Rattle.steps.specs.Call as C;
ghost use Rattle.steps.specs.Step.{say};
ghost use Rattle.multimap.specs.WellLinked.{Calls};
ghost use Rattle.answers.specs.Answers.{answered, done_of};

use super::{ListOrderedMultimap, Reply, by_value};
use answers::Refusal;

pub fn insert(m: ListOrderedMultimap, poster: u64, k: u64, v: u64) -> Reply<Result<(), Refusal>>
    ensures { Calls (C.vacant_insert poster k v) m (say (answered done_of result.answer)) result.map }
{
    by_value(m, |map| entries::vacant_insert(map, poster, k, v))
}
