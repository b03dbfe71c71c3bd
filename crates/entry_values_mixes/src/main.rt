// Every mix of seven calls of `next` and `next_back` on one reader, of a slice of five rounds of which the first 0, 1, .. 5 are filled, and
// with a count above the slice's length. A line for each mix: the count, and each call, f for `next` and b for `next_back`, with its answer.

#![tactic(auto)]

use std::{array, io};

const ROUNDS: [u64; 5] = [7, 0, u64::MAX, 12, 9];

fn main(rt: HostRuntime) -> io::Result<()> {
    for count in 0..=ROUNDS.len() + 1 {
        for bits in 0..128 {
            print_mix(&rt, count, bits)?;
        }
    }
    Ok(())
}

// Runs one mix and prints its line. A bit for each call, the lowest for the first: 0 is `next`, 1 is `next_back`.
fn print_mix(rt: &impl Print, count: usize, bits: u8) -> io::Result<()> {
    let order: [u8; 7] = array::from_fn(|i| bits >> i & 1);
    let mut out = [0; 7];
    let given = entry_values::mix(&ROUNDS, count, &order, &mut out);
    print!(rt; "{count}")?;
    let mut rounds = out.iter().take(given);
    for mark in order {
        let end = if mark == 0 { 'f' } else { 'b' };
        match rounds.next() {
            Some(round) => print!(rt; " {end}:{round}")?,
            None => print!(rt; " {end}:none")?,
        }
    }
    println!(rt)
}
