// Reads images from standard input, each after six bytes that say how long it is and into which limits of members and of rounds it is read, two
// bytes each, lowest first. A line for each: a refusal's number; or P, K and T. Then the limits of the map that is left; and, where it was not
// refused, how long the map's own image is, and how many of its bytes, and of those past it, are not as they should be.

#![tactic(auto)]

use multimap::{Limits, ListOrderedMultimap};
use std::io;
use std::io::{ErrorKind, Read};

// The longest image, and one byte more.
const LONGEST: usize = 16393;

fn main(rt: HostRuntime) -> io::Result<()> {
    let mut input = rt.stdin();
    // Ends at so many images, more than are given: a proved loop has to end, and nothing says that the input does.
    for _ in 0..100000 {
        if !turn(&rt, &mut input)? {
            break;
        }
    }
    Ok(())
}

// Reads one image and prints its line; says whether there was one.
fn turn(rt: &impl Print, input: &mut impl Read) -> io::Result<bool> {
    let mut head = [0u8; 6];
    if !read_front(input, &mut head, 6)? {
        return Ok(false);
    }
    let [a, b, c, d, e, f] = head;
    let length = two_bytes(a, b) as usize;
    let mut bytes = [0u8; LONGEST];
    if !read_front(input, &mut bytes, length)? {
        return Ok(false);
    }
    if let Some(image) = bytes.get(..length) {
        let limits = Limits {
            members: two_bytes(c, d),
            rounds: two_bytes(e, f),
        };
        show(rt, image, limits)?;
    }
    Ok(true)
}

fn two_bytes(low: u8, high: u8) -> u64 {
    u16::from_le_bytes([low, high]) as u64
}

// Reads so many bytes of the input to the front of a slice; says whether there were as many, and room for them.
fn read_front(input: &mut impl Read, bytes: &mut [u8], length: usize) -> io::Result<bool> {
    let Some(front) = bytes.get_mut(..length) else {
        return Ok(false);
    };
    match input.read_exact(front) {
        Ok(()) => Ok(true),
        Err(e) if e.kind() == ErrorKind::UnexpectedEof => Ok(false),
        Err(e) => Err(e),
    }
}

// Reads the image into these limits, and prints its line.
fn show(rt: &impl Print, s: &[u8], limits: Limits) -> io::Result<()> {
    let mut map = multimap::new(Limits::NONE);
    if let Err(refusal) = image::read_image(&mut map, limits, s) {
        print!(rt; "refused {}", refusal.number())?;
        print_limits(rt, &map)?;
        return println!(rt);
    }
    print_pairs(rt, &map)?;
    print_members(rt, &map)?;
    print_taken(rt, &map)?;
    print_limits(rt, &map)?;
    print_image(rt, &map, s)
}

fn print_pairs(rt: &impl Print, map: &ListOrderedMultimap) -> io::Result<()> {
    let mut members = [0u64; 1024];
    let mut rounds = [0u64; 1024];
    let n = reading::iter(map, &mut members, &mut rounds).unwrap_or(0);
    print!(rt; "list")?;
    for (member, round) in members.iter().zip(rounds.iter()).take(n) {
        print!(rt; " {member}:{round}")?;
    }
    Ok(())
}

fn print_members(rt: &impl Print, map: &ListOrderedMultimap) -> io::Result<()> {
    let mut members = [0u64; 256];
    let n = reading::keys(map, &mut members).unwrap_or(0);
    print!(rt; " keys")?;
    print_front(rt, &members, n)
}

// Prints the counter of each poster.
fn print_taken(rt: &impl Print, map: &ListOrderedMultimap) -> io::Result<()> {
    let mut counters = [0u64; 16];
    let n = reading::taken(map, &mut counters);
    print!(rt; " taken")?;
    print_front(rt, &counters, n)
}

// Prints the first n of the numbers, a space before each.
fn print_front(rt: &impl Print, numbers: &[u64], n: usize) -> io::Result<()> {
    for number in numbers.iter().take(n) {
        print!(rt; " {number}")?;
    }
    Ok(())
}

// Prints the limits of the map.
fn print_limits(rt: &impl Print, map: &ListOrderedMultimap) -> io::Result<()> {
    let most_members = map.members.limit;
    let most_rounds = map.rounds.limit;
    print!(rt; " limits {most_members} {most_rounds}")
}

// Writes the map's image again, and prints how it went.
fn print_image(rt: &impl Print, map: &ListOrderedMultimap, s: &[u8]) -> io::Result<()> {
    let mut out = [255u8; LONGEST];
    match image::write_image(map, &mut out) {
        Ok(n) => print!(rt; " image {n}")?,
        Err(refusal) => print!(rt; " refused {}", refusal.number())?,
    }
    // Past the image each byte is to stand as it stood.
    let wrong = out
        .iter()
        .enumerate()
        .filter(|(i, byte)| **byte != *s.get(*i).unwrap_or(&255))
        .count();
    println!(rt; " wrong {wrong}")
}
