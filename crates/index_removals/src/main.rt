// Prints hashes of some member numbers; then members whose places run across the end of the index, some of which leave; then 256
// members, of which every third leaves. tools/index_removals.py says what it must print.

#![tactic(auto)]

use index::{Found, KeyPlace};
use links::Place;
use std::io;

fn main(rt: HostRuntime) -> io::Result<()> {
    for member in HASHED {
        let hash = fnv::hash(member);
        println!(rt; "hash {member} {hash}")?;
    }
    let mut members = Members::new();
    members.join_first(&rt, 8)?;
    let mut lost = members;
    lost.leave(&rt, 412, false)?;
    lost.print_first(&rt, 8)?;
    lost.print_agrees(&rt)?;
    members.leave(&rt, 412, true)?;
    members.print_first(&rt, 8)?;
    members.join(&rt, 412, 0)?;
    members.print_first(&rt, 8)?;
    members.leave(&rt, 350, true)?;
    members.print_first(&rt, 8)?;
    members.leave(&rt, 350, true)?;
    members.print_first(&rt, 8)?;
    members.join_first(&rt, 256)?;
    members.leave_third(&rt)?;
    members.print_first(&rt, 256)?;
    members.print_agrees(&rt)
}

// Member numbers whose hashes are printed.
const HASHED: [u64; 11] = [
    0,
    1,
    7,
    255,
    256,
    65536,
    4294967295,
    4294967296,
    9223372036854775808,
    0x0123_4567_89ab_cdef,
    18446744073709551615,
];

// The numbers of the first eight members, whose searches start at 510, 510, 510, 511, 0, 511, 4 and 3.
const FIRST: [u64; 8] = [412, 621, 1408, 560, 350, 959, 161, 134];

// Gives the member number of a member place.
fn number(i: u16) -> u64 {
    match FIRST.get(i as usize) {
        Some(first) => *first,
        None => i as u64 * 4194368,
    }
}

// The members' numbers, which member places are in use, and the index over them.
#[derive(Clone, Copy)]
struct Members {
    index: [u16; 512],
    keys: [u64; 256],
    used: [bool; 256],
}

impl Members {
    fn new() -> Self {
        Members {
            index: index::empty(),
            keys: [0; 256],
            used: [false; 256],
        }
    }

    // Lets the member join in the member place `key`, unless it is there already.
    fn join(&mut self, rt: &impl Print, member: u64, key: u16) -> io::Result<()> {
        let Found::Absent(at, _) = index::find(&self.index, &self.keys, member) else {
            return Ok(());
        };
        let k = key as usize;
        if k < 256 {
            self.keys[k] = member;
            self.used[k] = true;
            index::insert(&mut self.index, at, KeyPlace::new(key));
        }
        print!(rt; "join ")?;
        self.print_find(rt, member)
    }

    // Makes the member leave, if it is there. Where the gap is not closed, its place in the index is only emptied.
    fn leave(&mut self, rt: &impl Print, member: u64, closed: bool) -> io::Result<()> {
        if let Found::At(at, key, _) = index::find(&self.index, &self.keys, member) {
            if let Some(used) = self.used.get_mut(key.index()) {
                *used = false;
            }
            if closed {
                index::remove(&mut self.index, &self.keys, member);
            } else {
                index::insert(&mut self.index, at, KeyPlace::new(index::EMPTY));
            }
        }
        print!(rt; "leave ")?;
        self.print_find(rt, member)
    }

    // Lets the first n numbers join.
    fn join_first(&mut self, rt: &impl Print, n: u16) -> io::Result<()> {
        for i in 0..n {
            self.join(rt, number(i), i)?;
        }
        Ok(())
    }

    // Makes every third of 256 numbers leave.
    fn leave_third(&mut self, rt: &impl Print) -> io::Result<()> {
        for i in (0..256).step_by(3) {
            self.leave(rt, number(i), true)?;
        }
        Ok(())
    }

    // Prints what the search for a member says: the place where it ended, and how many places it looked at.
    fn print_find(&self, rt: &impl Print, member: u64) -> io::Result<()> {
        match index::find(&self.index, &self.keys, member) {
            Found::At(place, _, looked) => println!(rt; "{member} at {place} looked {looked}"),
            Found::Absent(place, looked) => println!(rt; "{member} absent {place} looked {looked}"),
        }
    }

    fn print_first(&self, rt: &impl Print, n: u16) -> io::Result<()> {
        for i in 0..n {
            self.print_find(rt, number(i))?;
        }
        Ok(())
    }

    // Prints whether the index holds exactly the members.
    fn print_agrees(&self, rt: &impl Print) -> io::Result<()> {
        if index::agrees(&self.index, &self.keys, &self.used) {
            println!(rt; "agrees")
        } else {
            println!(rt; "differs")
        }
    }
}
