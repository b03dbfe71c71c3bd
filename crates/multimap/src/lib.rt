// The linked map: one record of arrays. A list of rounds, a list of members, each member's rounds as a chain, and the index over the members.

#![tactic(auto)]

ghost use Rattle.std.specs.Prelude.{◌≡◌, ◌<◌, length, ltb};
ghost use Rattle.steps.specs.State.{empty};
ghost use Rattle.steps.specs.Step.{too_high, make_of};
ghost use Rattle.steps.specs.Proper.{Allowed};
ghost use Rattle.index.specs.Search.{search as searched};
ghost use Rattle.links.specs.Places.{order};
ghost use Rattle.links.specs.Stores.{at};
ghost use Rattle.multimap.specs.Changes.{base_of};
ghost use Rattle.multimap.specs.Map.{members_of, rounds_of, state_of};
ghost use Rattle.multimap.specs.WellLinked.{WellLinked};

use index::{Found, KeyPlace};
pub use links::Counts;
use links::{Place, Walk};
use std::marker::Model;

pub const MEMBERS: u16 = 256;

pub const ROUNDS: u16 = 1024;

// The record's arrays, in its order.
pub type Keys = [u64; 256];

pub type Lengths = [u16; 256];

pub type KeyLinks = [KeyPlace; 257];

pub type Values = [u64; 1024];

pub type KeyIndex = [KeyPlace; 1024];

pub type ValueLinks = [ValuePlace; 1025];

pub type IndexLinks = [ValuePlace; 1280];

pub type Index = [u16; 512];

pub type Taken = [u32; 16];

// A round's place in the map's arrays of rounds. A contract sees its number. It has the impls of `KeyPlace`, for the reason given there.
#[repr(C)]
#[derive(Clone, Copy)]
pub struct ValuePlace(u16);

impl Model for ValuePlace {
    ghost use Rattle.std.specs.Prelude.{ℕ};

    ghost Value = { ℕ };

    ghost view = { λ p. p.0 };

    ghost inverse = { λ n. record { 0 = n } };
}

impl Place for ValuePlace {
    ghost number = { λ p. p };

    ghost of = { λ n. n };

    fn to_u16(self) -> u16 {
        self.0
    }

    fn new(n: u16) -> ValuePlace {
        ValuePlace(n)
    }
}

// How many members and how many rounds a map may hold. A contract sees the limits of the steps.
#[derive(Clone, Copy)]
pub struct Limits {
    pub members: u64,
    pub rounds: u64,
}

impl Model for Limits {
    ghost use Rattle.steps.specs.State as S;

    ghost Value = { S.Limits };

    ghost view = { λ l. S.limit l.members l.rounds };

    ghost inverse = { λ l. record { members = l.members; rounds = l.rounds } };
}

impl Limits {
    // Lets no member in and no round: the limits of a map whose making was refused.
    pub const NONE: Limits = Limits {
        members: 0,
        rounds: 0,
    };

    // Says whether a map may not have these limits: refusal 15.
    pub fn are_too_high(self) -> bool
        ensures { result ≡ too_high self }
    {
        (MEMBERS as u64) < self.members || (ROUNDS as u64) < self.rounds
    }
}

// Holds arrays of fixed size, since there is no heap, and Rust and C lay such a record out alike.
#[repr(C)]
#[derive(Clone, Copy)]
pub struct ListOrderedMultimap {
    // Of a member place: the member number, and how many rounds it has.
    pub keys: Keys,
    pub lengths: Lengths,
    // The list of members: the place after a place and the one before it. After 256 comes the first, and before 256 the last.
    pub next_key: KeyLinks,
    pub previous_key: KeyLinks,
    // Of a round place: the round, and its member's place.
    pub values: Values,
    pub key_index: KeyIndex,
    // The list of rounds, likewise. After 1024 comes the first, and before 1024 the last.
    pub next_value: ValueLinks,
    pub previous_value: ValueLinks,
    // The next and the previous round of the same member. At 1024 + k the head and the tail of the member place k, where the
    // last round's next and the first one's previous lead back to.
    pub next_index: IndexLinks,
    pub previous_index: IndexLinks,
    // The index: member places, or EMPTY.
    pub index: Index,
    // Of each list: how many places are in use, how many have ever been, the first freed one, from which the others
    // follow by next, and the map's limit.
    pub members: Counts,
    pub rounds: Counts,
    // Rounds ever taken in, of each poster.
    pub taken: Taken,
}

impl ListOrderedMultimap {
    // Searches for a member.
    pub fn find(&self, k: u64) -> Found
        ensures { result ≡ searched self.now.index self.now.keys k }
    {
        index::find(&self.index, &self.keys, k)
    }

    // Gives the place of the first round, and the end cell where there is none.
    pub fn first_round(&self) -> ValuePlace
        ensures { result ≡ at self.now.next_value 1024 }
    {
        links::after(&self.next_value, ValuePlace(ROUNDS))
    }

    // Gives the place of the first member, and the end cell where there is none.
    pub fn first_member(&self) -> KeyPlace
        ensures { result ≡ at self.now.next_key 256 }
    {
        links::after(&self.next_key, KeyPlace::new(MEMBERS))
    }

    // Gives the place of a member's first round.
    pub fn head(&self, key: KeyPlace) -> ValuePlace
        ensures { result ≡ at self.now.next_index (base_of key) }
    {
        links::after(&self.next_index, base(key))
    }

    // Gives the places of the rounds, in order.
    pub fn round_places(&self) -> Walk<'_, ValuePlace>
        ensures places { result ≡ order (rounds_of self.now) }
        ensures few { length result < 65536 }
    {
        links::along(&self.next_value, self.first_round(), self.rounds.len)
    }

    // Gives the places of the members, in order.
    pub fn member_places(&self) -> Walk<'_, KeyPlace>
        ensures places { result ≡ order (members_of self.now) }
        ensures few { length result < 65536 }
    {
        links::along(&self.next_key, self.first_member(), self.members.len)
    }

    // Gives the place of the member whose round stands at x.
    pub fn owner(&self, x: ValuePlace) -> KeyPlace
        ensures { result ≡ at self.now.key_index x }
    {
        links::get_or(&self.key_index, x.index(), KeyPlace::new(0))
    }

    // Gives the member number in a member place.
    pub fn member(&self, key: KeyPlace) -> u64
        ensures { result ≡ at self.now.keys key }
    {
        links::get_or(&self.keys, key.index(), 0)
    }

    // Gives the number of rounds of the member in a member place.
    pub fn size(&self, key: KeyPlace) -> u16
        ensures { result ≡ at self.now.lengths key }
    {
        links::get_or(&self.lengths, key.index(), 0)
    }

    // Gives the round in a round place.
    pub fn round(&self, x: ValuePlace) -> u64
        ensures { result ≡ at self.now.values x }
    {
        links::get_or(&self.values, x.index(), 0)
    }
}

// Makes the empty map with these limits, and with both 0 where it may not have them. Its own copy of the map is off the stack before the caller goes on.
#[inline(never)]
pub fn new(limits: Limits) -> ListOrderedMultimap
    ensures { WellLinked result × (state_of result ≡ (make_of limits).1) }
{
    if limits.are_too_high() {
        return bare(Limits::NONE);
    }
    bare(limits)
}

// Says whether there is no such poster: refusal 16.
pub fn no_poster(poster: u64) -> bool
    ensures { result ≡ ltb 15 poster }
{
    15 < poster
}

// Gives the cell at which the chain of a member's rounds begins and ends.
pub fn base(key: KeyPlace) -> ValuePlace
    ensures { result ≡ base_of key }
{
    ValuePlace(key.to_u16().saturating_add(ROUNDS))
}

// Makes the map with no place in use that has these limits.
fn bare(limits: Limits) -> ListOrderedMultimap
    requires { Allowed limits }
    ensures { WellLinked result × (state_of result ≡ empty limits) }
{
    let first_key = KeyPlace::new(0);
    let first_value = ValuePlace(0);
    let mut out = ListOrderedMultimap {
        keys: [0; 256],
        lengths: [0; 256],
        next_key: [first_key; 257],
        previous_key: [first_key; 257],
        values: [0; 1024],
        key_index: [first_key; 1024],
        next_value: [first_value; 1025],
        previous_value: [first_value; 1025],
        next_index: [first_value; 1280],
        previous_index: [first_value; 1280],
        index: index::empty(),
        members: Counts::unused(limits.members as u16),
        rounds: Counts::unused(limits.rounds as u16),
        taken: [0; 16],
    };
    out.next_key[256] = KeyPlace::new(MEMBERS);
    out.previous_key[256] = KeyPlace::new(MEMBERS);
    out.next_value[1024] = ValuePlace(ROUNDS);
    out.previous_value[1024] = ValuePlace(ROUNDS);
    out
}
