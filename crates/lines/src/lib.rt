// The lines of an input that comes in chunks, answered on a map in place.

#![tactic(auto)]

ghost use Rattle.std.specs.Prelude.{◌<◌, ◌≤◌, ◌≡◌, [], length, take};
ghost use Rattle.printing.specs.Said.{Roomy};
ghost use Rattle.lines.specs.Chunk.{held_of, Chunked, AnswersChunk, AnswersRest};
ghost use Rattle.lines.specs.Taken.{Took};

use multimap::ListOrderedMultimap;
use printing::MAX_PRINTED;

// As many bytes of a line are held as are needed to see that it is too long.
pub const MAX_HELD: usize = parsing::MAX_LINE + 1;

// The front of a line that has not ended: the first `held` of the bytes, or all where there are fewer. Is no `Vec`, since there is no heap.
#[derive(Clone, Copy)]
pub struct Unfinished {
    pub bytes: [u8; MAX_HELD],
    pub held: usize,
}

// How many bytes were printed, and how many of the chunk were used.
#[derive(Clone, Copy)]
pub struct Progress {
    pub used: usize,
    pub eaten: usize,
}

impl Unfinished {
    pub fn new() -> Unfinished
        ensures { held_of result ≡ [] }
    {
        Unfinished {
            bytes: [0; MAX_HELD],
            held: 0,
        }
    }

    // Refers to what is held.
    fn front(&self) -> &[u8]
        ensures { result.now ≡ held_of self.now }
    {
        self.bytes.get(..self.held).unwrap_or(&self.bytes)
    }

    // Takes a chunk of the input up to its first line end. Where there is one the line has ended, and so many bytes of the chunk are used, the
    // line end too; else all are.
    fn take_line(&mut self, chunk: &[u8]) -> Option<usize>
        ensures { Took chunk.now self.old self.new result }
    {
        let n = parsing::gap(chunk, b'\n');
        self.held = parsing::hold(&chunk[..n], &mut self.bytes, self.held);
        (n < chunk.len()).then_some(n + 1)
    }
}

// Answers the lines that end in the chunk, the first of them begun by what is held of `line`, and prints the answers to `out` one after
// another. It stops before the chunk's end where `out` has no room left for the longest answer.
pub fn answer_chunk(
    map: &mut ListOrderedMultimap,
    chunk: &[u8],
    line: &mut Unfinished,
    out: &mut [u8],
) -> Progress
    ensures { AnswersChunk chunk.now (held_of line.old) map.old out.old out.new map.new (held_of line.new) result }
{
    let mut used = 0;
    let mut at = 0;
    // Goes by indices, since the answer says how many bytes were printed and used; no iterator gives these parts before they are answered.
    while at < chunk.len() && MAX_PRINTED <= out.len() - used {
        let next = answer_next(map, &chunk[at..], line, &mut out[used..]);
        used += next.used;
        at += next.eaten;
    }
    Progress { used, eaten: at }
}

// Ends the input: what is held is the last line, if there is any. Where `out` has no room for the longest answer nothing is done, and the answer
// is 0.
#[tactic(auto, using(crate::proofs::Chunks::rest_none, crate::proofs::Chunks::rest_some))]
pub fn answer_rest(map: &mut ListOrderedMultimap, line: &Unfinished, out: &mut [u8]) -> usize
    ensures { AnswersRest (held_of line.now) map.old out.old out.new map.new result }
{
    let last = line.front();
    if last.is_empty() {
        return 0;
    }
    one_line::answer_line(map, last, out)
}

// Takes the chunk up to its first line end, and answers the line if it has ended.
fn answer_next(
    map: &mut ListOrderedMultimap,
    chunk: &[u8],
    line: &mut Unfinished,
    out: &mut [u8],
) -> Progress
    requires roomy { Roomy out.old }
    requires some { 0 < length chunk.now }
    ensures chunked { Chunked (held_of line.old) (take result.eaten chunk.now) map.old out.old out.new map.new result.used (held_of line.new) }
    ensures eaten_nonzero { (0 < result.eaten) × (result.eaten ≤ length chunk.now) }
{
    match line.take_line(chunk) {
        Some(eaten) => {
            let used = one_line::answer_line(map, line.front(), out);
            line.held = 0;
            Progress { used, eaten }
        }
        None => Progress {
            used: 0,
            eaten: chunk.len(),
        },
    }
}
