// Image writing, image reading and the well-linked check by value: the record goes in and comes back. The two that only read hand back the very
// record.

#![tactic(auto)]

ghost use Rattle.std.specs.Prelude.{◌≡◌};
ghost use Rattle.steps.specs.Call as C;
ghost use Rattle.steps.specs.Step.{write};
ghost use Rattle.multimap.specs.Map.{state_of};
ghost use Rattle.multimap.specs.WellLinked.{WellLinked};
ghost use Rattle.index.specs.Agree.{Decides};
ghost use Rattle.answers.specs.Answers.{answered, done_of};
ghost use Rattle.image.specs.Image.{write_of};
ghost use Rattle.image.specs.Answers.{Reads};

use answers::Refusal;
use multimap::{Limits, ListOrderedMultimap};
use ordered_multimap::Reply;

// Writes the image of the map to the front of `out`.
pub fn write_image(m: ListOrderedMultimap, out: &mut [u8]) -> Reply<Result<usize, Refusal>>
    ensures written { WellLinked m → write (answered C.count result.answer) out.new ≡ write_of (state_of m) out.old }
    ensures same { result.map ≡ m }
{
    let answer = image::write_image(&m, out);
    Reply { map: m, answer }
}

// Reads an image into these limits; a refused reading gives the map that `new` makes with them.
pub fn read_image(limits: Limits, bytes: &[u8]) -> Reply<Result<(), Refusal>>
    ensures { Reads limits bytes.now (answered done_of result.answer) result.map }
{
    let mut map = multimap::new(Limits::NONE);
    let answer = image::read_image(&mut map, limits, bytes);
    Reply { map, answer }
}

// Says whether a map is well-linked, whatever its arrays hold.
pub fn well_linked(m: ListOrderedMultimap) -> Reply<bool>
    ensures { Decides result.answer (WellLinked m) × (result.map ≡ m) }
{
    let answer = well_linked::well_linked(&m);
    Reply { map: m, answer }
}
