// The calls of the Rust crate's `OccupiedEntry`. Each is refused where the member is not there.
ghost use Rattle.steps.specs.Call as C;
ghost use Rattle.steps.specs.Step.{say};
ghost use Rattle.multimap.specs.WellLinked.{Calls};
ghost use Rattle.answers.specs.Answers.{answered, done_of, round_of};

use super::{ListOrderedMultimap, Reply, by_value};
use answers::Refusal;

pub fn append(m: ListOrderedMultimap, poster: u64, k: u64, v: u64) -> Reply<Result<(), Refusal>>
    ensures { Calls (C.occupied_append poster k v) m (say (answered done_of result.answer)) result.map }
{
    by_value(m, |map| entries::occupied_append(map, poster, k, v))
}

pub fn insert(
    m: ListOrderedMultimap,
    poster: u64,
    k: u64,
    v: u64,
) -> Reply<Result<Option<u64>, Refusal>>
    ensures { Calls (C.occupied_insert poster k v) m (say (answered round_of result.answer)) result.map }
{
    by_value(m, |map| entries::occupied_insert(map, poster, k, v))
}

pub fn remove_entry(m: ListOrderedMultimap, k: u64) -> Reply<Result<Option<u64>, Refusal>>
    ensures { Calls (C.occupied_remove_entry k) m (say (answered round_of result.answer)) result.map }
{
    by_value(m, |map| entries::occupied_remove_entry(map, k))
}
