// A walk along links that copies what it meets to a lent slice.

#![tactic(auto)]

ghost use Rattle.std.specs.Prelude.{◌≡◌, get_or};
ghost use Rattle.answers.specs.Answers.{answered};
ghost use Rattle.steps.specs.Call as C;
ghost use Rattle.steps.specs.Step.{write};
ghost use Rattle.links.specs.Stores.{at_in};
ghost use Rattle.copying.specs.Slices.{along, writing};

use answers::Refusal;
use links::Place;

// Copies n of the values, at the place `first` and on along the links, to the front of `out`, and answers n.
pub fn copy<P: Place>(
    values: &[u64],
    next: &[P],
    first: P,
    n: u16,
    out: &mut [u64],
) -> Result<usize, Refusal>
    ensures { write (answered C.count result) out.new ≡ writing (along (λ x. get_or values.now (P.number x) 0) (at_in P.number P.of next.now) first n) out.old }
{
    let end = n as usize;
    if out.len() < end {
        return Err(Refusal::Short);
    }
    // Goes along the links by hand: an iterator along them was tried, and `get_all` of four rounds takes 18 % longer by it, since a place is
    // then tested for the links before it is for the values, and so twice.
    let mut x = first;
    for slot in &mut out[..end] {
        *slot = links::get_or(values, x.index(), 0);
        x = links::after(next, x);
    }
    Ok(end)
}
