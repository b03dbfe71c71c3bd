// Runs the calls of a list held in slices, one after the other, on one map of its own that starts new.

#![tactic(auto)]

ghost use Rattle.std.specs.Prelude.{◌≡◌, length};
ghost use Rattle.steps.specs.Call.{call_of, lends as lends_of};
ghost use Rattle.multimap.specs.declared.ListOrderedMultimap.{ListOrderedMultimap};
ghost use Rattle.multimap.specs.WellLinked.{CallsTold, WellLinked};
ghost use Rattle.replay.specs.Place.{head_of, known_head, fits_at, Ready, Small, Past, Within, AllRan, Advanced};
ghost use Rattle.replay.specs.Played.{Played};

use multimap::{Limits, ListOrderedMultimap};

// Runs the calls that the slices hold, on the new map with these limits. The out slices, and after each call its answer, are written to `outs`,
// `outs2` and `answers`. A list that is cut off or holds what is no call is run up to there. The answer is how many calls were run.
// C lends the slices one by one.
pub fn replay(
    limits: Limits,
    calls: &[u64],
    outs: &mut [u64],
    outs2: &mut [u64],
    marks: &[u8],
    answers: &mut [u64],
) -> u64
    ensures { (m : ListOrderedMultimap) × Played limits calls.now outs.old outs2.old marks.now answers.old outs.new outs2.new answers.new m result }
{
    let mut map = multimap::new(limits);
    let mut tape = Tape {
        calls,
        outs,
        outs2,
        marks,
        answers,
    };
    tape.run(&mut map)
}

// The slices of a list of calls, and room for its answers.
#[derive(Drop)]
struct Tape<'a> {
    calls: &'a [u64],
    outs: &'a mut [u64],
    outs2: &'a mut [u64],
    marks: &'a [u8],
    answers: &'a mut [u64],
}

// The seven numbers of a call: which it is, its poster, its arguments, and the lengths of its out slice, its second one and its marks.
#[derive(Clone, Copy)]
struct Head {
    op: u64,
    poster: u64,
    k: u64,
    v: u64,
    n: u64,
    n2: u64,
    n3: u64,
}

// Where a run stands in its slices, and how many calls it has run, each of seven numbers, and with an answer of four.
#[derive(Clone, Copy)]
struct Place {
    out: usize,
    out2: usize,
    mark: usize,
    ran: usize,
}

// Reads the seven numbers of the call that the list goes on with, if it does.
#[tactic(auto, using(crate::proofs::Tapes::head_first, crate::proofs::Tapes::head_none))]
fn read_head(calls: &[u64]) -> Option<Head>
    ensures { result ≡ head_of calls.now }
{
    let &[op, poster, k, v, n, n2, n3, ..] = calls else {
        return None;
    };
    Some(Head {
        op,
        poster,
        k,
        v,
        n,
        n2,
        n3,
    })
}

// Says whether the call has an out slice. Goes by the calls' numbers, as `known` does, since a list of calls names them so (crate steps, `call_of`).
fn lends(op: u64) -> bool
    ensures { result ≡ lends_of op }
{
    matches!(op, 2 | 4 | 16 | 19 | 22 | 23)
}

// Says whether there is such a call, with slices and marks only where it has them.
fn known(h: Head) -> bool
    ensures { result ≡ known_head h }
{
    h.op < 24 && (lends(h.op) || h.n == 0) && (h.op == 22 || h.n2 == 0) && (h.op == 12 || h.n3 == 0)
}

fn after(p: Place, h: Head) -> Place
    requires { Small p h }
    ensures { Past p h result }
{
    Place {
        out: p.out + h.n as usize,
        out2: p.out2 + h.n2 as usize,
        mark: p.mark + h.n3 as usize,
        ran: p.ran + 1,
    }
}

impl Tape<'_> {
    // Runs all calls, one after the other, until the list does not go on.
    fn run(&mut self, map: &mut ListOrderedMultimap) -> u64
        ensures { WellLinked map.old → AllRan self.old map.old self.new map.new result }
    {
        let mut p = Place {
            out: 0,
            out2: 0,
            mark: 0,
            ran: 0,
        };
        while let Some(next) = self.advance(map, p) {
            p = next;
        }
        p.ran as u64
    }

    // Makes the next call, where the list goes on with one, and gives the place after it.
    fn advance(&mut self, map: &mut ListOrderedMultimap, p: Place) -> Option<Place>
        requires { Within p self.old }
        ensures { Advanced p self.old map.old result self.new map.new }
    {
        let h = read_head(&self.calls[7 * p.ran..])?;
        if !self.fits(p, h) {
            return None;
        }
        let q = after(p, h);
        turn(
            map,
            h,
            &mut self.outs[p.out..q.out],
            &mut self.outs2[p.out2..q.out2],
            &self.marks[p.mark..q.mark],
            &mut self.answers[4 * p.ran..4 * q.ran],
        );
        Some(q)
    }

    // Says whether the call's slices and marks are all there from p on, and room for its answer.
    #[tactic(auto, unfolding(crate::specs::Tape::fits))]
    fn fits(&self, p: Place, h: Head) -> bool
        requires { Within p self.now }
        ensures { result ≡ fits_at p h self.now }
    {
        known(h)
            && h.n <= (self.outs.len() - p.out) as u64
            && h.n2 <= (self.outs2.len() - p.out2) as u64
            && h.n3 <= (self.marks.len() - p.mark) as u64
            && 4 <= self.answers.len() - 4 * p.ran
    }
}

// Makes one call, with its answer's numbers in a slice of four.
fn turn(
    map: &mut ListOrderedMultimap,
    h: Head,
    out: &mut [u64],
    out2: &mut [u64],
    marks: &[u8],
    ans: &mut [u64],
)
    requires { Ready h.op out.old out2.old × (length ans.old ≡ 4) }
    ensures { CallsTold (call_of h.op h.poster h.k h.v out.old out2.old marks.now) map.old map.new out.new out2.new ans.new }
{
    let Some(ans) = ans.as_mut_array() else {
        unreachable!()
    };
    let outcome = turn::call(map, h.op, h.poster, h.k, h.v, out, out2, marks);
    answers::tell(ans, outcome);
}
