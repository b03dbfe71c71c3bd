// The image of a map: sizes first, n rounds and m members in four bytes each, then n members and n rounds in eight bytes each; every number
// lowest byte first. No public function has a premise.

#![tactic(auto)]

ghost use Rattle.std.specs.Prelude.{◌≡◌, ◌+◌, ◌*◌, ◌/◌, ◌≤◌, ℕ, length};
ghost use Rattle.std.specs.Simd.{first_chunks};
ghost use Rattle.std.proofs.lemmas.List.Edits.{sets};
ghost use Rattle.answers.specs.Answers.{answered, done_of};
ghost use Rattle.steps.specs.Call as C;
ghost use Rattle.steps.specs.State.{empty};
ghost use Rattle.steps.specs.Step.{over};
ghost use Rattle.multimap.specs.Map.{limits_of, state_of};
ghost use Rattle.multimap.specs.WellLinked.{WellLinked};
ghost use Rattle.image.specs.Running.{image_in};
ghost use Rattle.image.specs.Answers.{Imaged, Reads};
ghost use Rattle.image.specs.Parts.{RightSizes, Said, Restored};

use answers::Refusal;
use multimap::{Limits, ListOrderedMultimap};

// Writes the image of the map to the front of `out`, and says how long it is.
pub fn write_image(map: &ListOrderedMultimap, out: &mut [u8]) -> Result<usize, Refusal>
    ensures { Imaged map.now out.old (answered C.count result) out.new }
{
    let size = 8 + 16 * map.rounds.len as usize;
    if out.len() < size {
        return Err(Refusal::Short);
    }
    put_along(map, out);
    Ok(size)
}

// Reads an image into these limits, whatever the map holds; a refused reading leaves the map that is made new with them.
pub fn read_image(
    map: &mut ListOrderedMultimap,
    limits: Limits,
    bytes: &[u8],
) -> Result<(), Refusal>
    ensures { Reads limits bytes.now (answered done_of result) map.new }
{
    packing::new(map, limits)?;
    let (n, m) = read_sizes(bytes, limits)?;
    if let Err(refusal) = restore(map, bytes, n, m) {
        // Goes field by field: what lies between two fields of the record is the caller's, and stays.
        let _ = packing::new(map, limits);
        return Err(refusal);
    }
    Ok(())
}

// Stores bytes from `at` on.
fn put<const N: usize>(out: &mut [u8], at: usize, bytes: &[u8; N])
    requires { at + N ≤ length out.old }
    ensures { out.new ≡ sets out.old at bytes.now }
{
    store(&mut out[at..at + N], bytes);
}

// Stores bytes as an array: of a slice the compiler tests whether it lies over the bytes.
fn store<const N: usize>(place: &mut [u8], bytes: &[u8; N])
    requires { length place.old ≡ N }
    ensures { place.new ≡ bytes.now }
{
    let Some(place) = place.as_mut_array() else {
        unreachable!()
    };
    *place = *bytes;
}

// Stores the sizes at the front of `out`, then pair by pair, along the links, a member in the first array and a round in the second. Where they
// go is carried along, and not worked out from the pair's number: that is a rule of the project. Before each pair `Running` holds.
fn put_along(map: &ListOrderedMultimap, out: &mut [u8])
    requires { 8 + 16 * map.now.rounds.len ≤ length out.old }
    ensures { out.new ≡ over (image_in map.now) out.old }
{
    put(out, 0, &u32::from(map.rounds.len).to_le_bytes());
    put(out, 4, &u32::from(map.members.len).to_le_bytes());
    let mut first = 8;
    let mut second = 8 + 8 * map.rounds.len as usize;
    for x in map.round_places() {
        put(out, first, &map.member(map.owner(x)).to_le_bytes());
        put(out, second, &map.round(x).to_le_bytes());
        first += 8;
        second += 8;
    }
}

// Reads the sizes, how many rounds and members, and checks them, with the image's length, in the order of the table.
fn read_sizes(s: &[u8], limits: Limits) -> Result<(usize, u64), Refusal>
    ensures { Said limits s.now result }
{
    let &[a, b, c, d, e, f, g, h, ..] = s else {
        return Err(Refusal::TooShort);
    };
    let n = u32::from_le_bytes([a, b, c, d]) as u64;
    let m = u32::from_le_bytes([e, f, g, h]) as u64;
    if limits.rounds < n || limits.members < m {
        return Err(Refusal::TooMany);
    }
    let rounds = n as usize;
    if s.len() != 8 + 16 * rounds {
        return Err(Refusal::WrongLength);
    }
    Ok((rounds, m))
}

// Appends the n pairs of an image to a new map. Refuses where there is no room for all of their members, or these are not m.
fn restore(map: &mut ListOrderedMultimap, s: &[u8], n: usize, m: u64) -> Result<(), Refusal>
    requires { RightSizes (limits_of map.old) s.now n m }
    ensures { WellLinked map.old → state_of map.old ≡ empty (limits_of map.old) → Restored (limits_of map.old) s.now result map.new }
{
    let ks = number_bytes(&s[8..]);
    let vs = number_bytes(&s[8 + 8 * n..]);
    for (&member, &round) in ks.iter().zip(vs) {
        let k = u64::from_le_bytes(member);
        let v = u64::from_le_bytes(round);
        let Ok(_) = adding::append(map, 0, k, v) else {
            return Err(Refusal::WrongMembers);
        };
    }
    if map.members.len as u64 != m {
        return Err(Refusal::WrongMembers);
    }
    Ok(())
}

// Refers to the numbers that a part of an image begins with, each by its eight bytes.
fn number_bytes(s: &[u8]) -> &[[u8; 8]]
    ensures front { result.now ≡ first_chunks 8 (length s.now / 8) s.now }
    ensures front_len { length result.now ≡ length s.now / 8 }
{
    s.as_chunks().0
}
