// The calls program: it reads lines from standard input and prints an answer for each, until the input ends. What is printed is proved of crate
// `lines`; here bytes are read, handed over and written.

#![tactic(auto)]

ghost use Rattle.std.specs.Prelude.{◌≤◌, length, IfOk};
ghost use Rattle.multimap.specs.WellLinked.{WellLinked};
ghost use Rattle.printing.specs.Said.{Roomy};

use anyhow::{Context, Result};
use lines::Unfinished;
use multimap::{Limits, ListOrderedMultimap};
use std::env::{Env, FillError};
use std::io::Read;

fn main(rt: HostRuntime) -> Result<()> {
    if has_argument(&rt) {
        eprintln!(rt; "usage: calls < lines > answers")?;
        return Ok(());
    }
    answer_input(&rt, &mut rt.stdin())
}

// Says whether the program was given an argument.
fn has_argument(rt: &impl Env) -> bool {
    !matches!(rt.arg(1, &mut [0]), Err(FillError::NotPresent))
}

// Answers the input on a new map, chunk by chunk, until it ends. A proved loop has to end, and nothing says that the input does: no run takes as
// many turns.
fn answer_input(rt: &impl Print, input: &mut impl Read) -> Result<()> {
    let mut map = multimap::new(Limits {
        members: 256,
        rounds: 1024,
    });
    let mut chunk = [0; 65536];
    let mut out = [0; 65536];
    let mut line = Unfinished::new();
    for _ in 0..u64::MAX {
        let n = read_input(input, &mut chunk)?;
        if n == 0 {
            break;
        }
        answer_all(rt, &mut map, &chunk[..n], &mut line, &mut out)?;
    }
    answer_rest(rt, &mut map, &line, &mut out)
}

// Answers each line that ends in the chunk, and writes the answers before the next read may wait.
fn answer_all(
    rt: &impl Print,
    map: &mut ListOrderedMultimap,
    chunk: &[u8],
    line: &mut Unfinished,
    out: &mut [u8],
) -> Result<()>
    requires { WellLinked map.old × Roomy out.old }
    ensures { WellLinked map.new }
{
    let mut rest = chunk;
    while !rest.is_empty() {
        let next = lines::answer_chunk(map, rest, line, out);
        write_output(rt, &out[..next.used])?;
        rest = &rest[next.eaten..];
    }
    Ok(())
}

// Answers what stands after the last line end, if there is any, and writes the answer.
fn answer_rest(
    rt: &impl Print,
    map: &mut ListOrderedMultimap,
    line: &Unfinished,
    out: &mut [u8],
) -> Result<()>
    requires { WellLinked map.old × Roomy out.old }
    ensures { WellLinked map.new }
{
    let used = lines::answer_rest(map, line, out);
    write_output(rt, &out[..used])
}

// Reads some bytes, and gives how many. The input has ended where there are none.
fn read_input(input: &mut impl Read, chunk: &mut [u8]) -> Result<usize>
    ensures { IfOk result (λ n. n ≤ length chunk.new) }
{
    input.read(chunk).context("calls: standard input")
}

fn write_output(rt: &impl Print, bytes: &[u8]) -> Result<()> {
    rt.write_all(bytes).context("calls: standard output")
}
