// The rounds of one record, given from either end: a struct that holds the filled part of a slice and two ends, and thin functions over it.

#![tactic(auto)]

ghost use Rattle.std.specs.Prelude.{◌≡◌, true, false, length, ◌+◌, ◌<◌, ◌^◌, IfSome};
ghost use Rattle.std.specs.Iterator.{item_count, at_most, UpTo};
ghost use Rattle.std.specs.Iterator.SizeHint.{IsWithinCount, IsExactHint};
ghost use Rattle.std.proofs.lemmas.List.Edits.{sets};
ghost use Rattle.entry_values.specs.Reader.{Filled, Fresh, Stepped, filled_part, or_none, remaining};
ghost use Rattle.entry_values.specs.Mix.{Mixed, mark_of, marks, round_of};

// Keeps two ends beside the slice, and no slice that gets shorter: that is a rule of the project.
#[derive(Clone, Copy)]
pub struct EntryValues<'a> {
    pub rounds: &'a [u64],
    // Of these the ones from front up to back, back not among them, are not given yet.
    pub front: usize,
    pub back: usize,
}

// Refers to the first `count` of a slice; to all of it where it is shorter.
// Goes by `min`, since the check doesn't find alone that `get(..count).unwrap_or(slice)` is the same.
pub fn filled_part(slice: &[u64], count: usize) -> &[u64]
    ensures { Filled slice.entry count result }
{
    &slice[..count.min(slice.len())]
}

impl<'a> EntryValues<'a> {
    // Makes a reader of the part of a slice that `get_all` filled, where it answered `count`.
    pub fn new(slice: &'a [u64], count: usize) -> EntryValues<'a>
        ensures { Fresh slice.entry count result }
    {
        let rounds = filled_part(slice, count);
        EntryValues {
            rounds,
            front: 0,
            back: rounds.len(),
        }
    }

    // Refers to the rounds that are not given yet. No end needs to lie within the slice.
    fn left(&self) -> &'a [u64]
        ensures { result.now ≡ remaining self.now }
    {
        let up_to_back = filled_part(self.rounds, self.back);
        &up_to_back[self.front.min(up_to_back.len())..]
    }

    // Makes the call that a mark asks for: 0 is `next`, any other `next_back`.
    fn call(&mut self, mark: u8) -> Option<u64>
        ensures { Stepped (mark_of mark) self.old result self.new }
    {
        if mark == 0 {
            self.next()
        } else {
            self.next_back()
        }
    }
}

impl Iterator for EntryValues<'_> {
    type Item = u64;

    ghost next_gives = { Stepped false };

    ghost remaining = { item_count remaining };

    fn next(&mut self) -> Option<u64> {
        let first = *self.left().first()?;
        self.front += 1;
        Some(first)
    }

    fn size_hint(&self) -> (usize, Option<usize>)
        ensures lower { IsWithinCount result.0 (at_most (length (remaining self.now))) }
        ensures upper { IfSome result.1 (UpTo (at_most (length (remaining self.now)))) }
        ensures exact { IsExactHint result (length (remaining self.now)) }
    {
        let len = self.len();
        (len, Some(len))
    }
}

impl DoubleEndedIterator for EntryValues<'_> {
    ghost next_back_gives = { Stepped true };

    fn next_back(&mut self) -> Option<u64> {
        let (last, rest) = self.left().split_last()?;
        self.back = self.front + rest.len();
        Some(*last)
    }
}

impl ExactSizeIterator for EntryValues<'_> {
    fn len(&self) -> usize {
        self.left().len()
    }
}

// Makes a mix of calls on one reader of the first `count` of a slice, a byte for each: 0 is `next`, any other `next_back`. The rounds that the
// calls give are written out in order, and the answer is their number: the calls after these answered none.
// Takes bytes as marks, as `retain` does: an enum for the two calls would ask more of callers.
pub fn mix(slice: &[u64], count: usize, order: &[u8], out: &mut [u64]) -> usize
    ensures { Mixed (marks order.now) (filled_part count slice.now) out.old result out.new }
{
    let mut reader = EntryValues::new(slice, count);
    let mut given = 0;
    for mark in order {
        given = put(out, given, reader.call(*mark));
    }
    given
}

// Writes a round at `given`, where the slice has that place, and answers the place after it; of none, `given`.
fn put(out: &mut [u64], given: usize, round: Option<u64>) -> usize
    requires { given + 1 < 2 ^ 64 }
    ensures number { result ≡ given + length (round_of (or_none round)) }
    ensures written { out.new ≡ sets out.old given (round_of (or_none round)) }
{
    let Some(round) = round else { return given };
    if given < out.len() {
        out[given] = round;
    }
    given + 1
}
