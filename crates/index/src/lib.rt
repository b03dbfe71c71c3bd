// The index over the members: open addressing in 512 places, with no marks left by removal. A place holds a member place, which is below KEYS,
// or EMPTY: the C interface has these arrays of numbers, so no Option stands there.

#![tactic(auto)]

ghost use Rattle.std.specs.Prelude.{◌≡◌, List, ℕ, ◌<◌, set};
ghost use Rattle.index.specs.Table.{empty_index, Holds, dist, home};
ghost use Rattle.index.specs.Removal.{Closed, Removed};
ghost use Rattle.index.specs.Agree.{Decides, FoundIn, FoundKey, PlaceOk, KeyOk, Lists};
ghost use Rattle.index.specs.Search.{search as searched};

use links::Place;
use std::marker::Model;

pub const KEYS: u16 = 256;

pub const EMPTY: u16 = 65535;

// A member's place in the map's arrays of keys. A contract sees its number. `multimap::ValuePlace` has the same impls: `rt verdict` refuses those
// that a macro of the repository's own writes, and the C interface takes no struct with a type parameter.
#[repr(C)]
#[derive(Clone, Copy)]
pub struct KeyPlace(u16);

impl Model for KeyPlace {
    ghost use Rattle.std.specs.Prelude.{ℕ};

    ghost Value = { ℕ };

    ghost view = { λ p. p.0 };

    ghost inverse = { λ n. record { 0 = n } };
}

impl Place for KeyPlace {
    ghost number = { λ p. p };

    ghost of = { λ n. n };

    fn to_u16(self) -> u16 {
        self.0
    }

    fn new(n: u16) -> KeyPlace {
        KeyPlace(n)
    }
}

// What a search finds: the member's place in the index, its member place and how many places were looked at;
// or the first empty place, and how many were looked at. A Result of two tuples would be no plainer: Absent is no error, since a new member is put
// where it says, and the numbers would lose the names At and Absent.
#[derive(Clone, Copy)]
pub enum Found {
    At(usize, KeyPlace, usize),
    Absent(usize, usize),
}

// Makes the index with every place empty.
pub fn empty() -> [u16; 512]
    ensures { result ≡ empty_index }
{
    [EMPTY; 512]
}

// Says where the search for a member starts.
#[tactic(auto, unfolding(crate::specs::Table::home))]
pub fn start(member: u64) -> usize
    ensures { result ≡ home member }
{
    (fnv::hash(member) % 512) as usize
}

// Searches for a member.
#[tactic(auto, using(crate::proofs::Search::home_lt))]
pub fn find<'a>(index: &'a [u16; 512], keys: &'a [u64; 256], member: u64) -> Found
    ensures { result ≡ searched index.now keys.now member }
{
    let first = start(member);
    for before in 0..512 {
        let place = (first + before) % 512;
        let key = index[place];
        if KEYS <= key {
            return Found::Absent(place, before + 1);
        }
        if keys[key as usize] == member {
            return Found::At(place, KeyPlace(key), before + 1);
        }
    }
    Found::Absent(first, 512)
}

// Puts the member place `key` into the place `at`. Where that is past the end, nothing changes.
pub fn insert(index: &mut [u16; 512], at: usize, key: KeyPlace)
    ensures { index.new ≡ set index.old at key }
{
    links::put(index, at, key.0);
}

// Takes a member out of the index, and closes the gap. A number that the search does not find changes nothing.
#[tactic(auto, using(crate::proofs::Removes::removed_none, crate::proofs::Finds::inside_at))]
pub fn remove(index: &mut [u16; 512], keys: &[u64; 256], member: u64)
    ensures { Removed index.old keys.now member index.new }
{
    if let Found::At(at, _, _) = find(index, keys, member) {
        close(index, keys, at);
    }
}

// Says whether the index holds exactly the member places in use.
pub fn agrees<'a>(index: &'a [u16; 512], keys: &'a [u64; 256], used: &'a [bool; 256]) -> bool
    ensures { (ks : List ℕ) → Lists used.now ks → Decides result (Holds index.now keys.now ks) }
{
    (0..512).all(|at| place_ok(index, keys, used, at))
        && (0..KEYS).all(|key| key_ok(index, keys, used, key))
}

// Counts the steps up from a to b.
#[tactic(auto, unfolding(crate::specs::Table::dist))]
fn steps(a: usize, b: usize) -> usize
    requires { (a < 512) × (b < 512) }
    ensures { result ≡ dist a b }
{
    (b + (512 - a)) % 512
}

// Takes out what stands in the place `at`, and closes the gap: each later member whose search passes it moves down into it.
#[tactic(auto, using(crate::proofs::Search::home_lt))]
fn close(index: &mut [u16; 512], keys: &[u64; 256], at: usize)
    requires { at < 512 }
    ensures { Closed index.old keys.now at index.new }
{
    let mut gap = at;
    for passed in 1..512 {
        let next = (at + passed) % 512;
        let key = index[next];
        if KEYS <= key {
            index[gap] = EMPTY;
            return;
        }
        let home = start(keys[key as usize]);
        if steps(home, gap) < steps(home, next) {
            index[gap] = key;
            gap = next;
        }
    }
}

// Says whether a search ended in the place `at` with what it looked for.
#[tactic(auto, unfolding(crate::specs::Agree::FoundIn))]
fn found_in(found: Found, at: usize) -> bool
    ensures { Decides result (FoundIn at found) }
{
    matches!(found, Found::At(place, _, _) if place == at)
}

// Says whether a search found the member place `key`.
#[tactic(auto, unfolding(crate::specs::Agree::FoundKey))]
fn found_key(found: Found, key: u16) -> bool
    ensures { Decides result (FoundKey key found) }
{
    matches!(found, Found::At(_, place, _) if place.0 == key)
}

// Says whether a place is empty, or holds a member place in use whose member is found there.
#[tactic(auto, unfolding(crate::specs::Agree::PlaceOk))]
fn place_ok(index: &[u16; 512], keys: &[u64; 256], used: &[bool; 256], at: usize) -> bool
    requires { at < 512 }
    ensures { Decides result (PlaceOk index.now keys.now used.now at) }
{
    let key = index[at];
    if key == EMPTY {
        return true;
    }
    if KEYS <= key {
        return false;
    }
    let k = key as usize;
    used[k] && found_in(find(index, keys, keys[k]), at)
}

// Says whether a member place is not in use, or its member is found under it.
#[tactic(auto, unfolding(crate::specs::Agree::KeyOk))]
fn key_ok(index: &[u16; 512], keys: &[u64; 256], used: &[bool; 256], key: u16) -> bool
    requires { key < 256 }
    ensures { Decides result (KeyOk index.now keys.now used.now key) }
{
    let k = key as usize;
    !used[k] || found_key(find(index, keys, keys[k]), key)
}
