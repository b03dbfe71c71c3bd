// What a line of the calls program asks, by its bytes.

#![tactic(auto)]

ghost use Rattle.std.specs.Prelude.{◌≡◌, ◌≤◌, List, [], ◌∷◌, ℕ, length};
ghost use Rattle.parsing.specs.Line as Line;
ghost use Rattle.parsing.specs.Split.{gap as gap_of, find as find_of, Held};
ghost use Rattle.parsing.specs.Told.{told};
ghost use Rattle.std.specs.List.{list_all};

// Reads one or more digits: None where there is another byte, or the value is not below 2^64.
#[tactic(auto, using(crate::proofs::Numbers::off, crate::proofs::Numbers::some_digits))]
pub fn read_number(s: &[u8]) -> Option<u64>
    ensures { result ≡ Line.number_of s.now }
{
    if s.is_empty() {
        return None;
    }
    let mut value = 0;
    for &b in s {
        value = add_digit(value, b)?;
    }
    Some(value)
}

// Says whether each byte is a mark.
pub fn are_marks(s: &[u8]) -> bool
    ensures { result ≡ list_all Line.is_mark s.now }
{
    s.iter().all(|b| *b == b'0' || *b == b'1')
}

// Counts the bytes before the first b.
#[tactic(auto, using(crate::proofs::Gaps::before))]
pub fn gap(s: &[u8], b: u8) -> usize
    ensures count { result ≡ gap_of b s.now }
    ensures within { result ≤ length s.now }
{
    find(s, b).unwrap_or(s.len())
}

// Finds the first b.
fn find(s: &[u8], b: u8) -> Option<usize>
    ensures { result ≡ find_of b s.now }
{
    s.iter().position(|x| *x == b)
}

// What a line asks. The marks of Keeps are the line's bytes after its first two.
#[derive(Clone, Copy)]
pub enum Request {
    Adds(u64, u64),
    Inserts(u64, u64),
    Removes(u64),
    Front,
    Back,
    Keeps,
    Lists,
    Members,
    Bad,
}

// The longest line, without its line end.
pub const MAX_LINE: usize = 1100;

#[tactic(auto, using(crate::proofs::Forms::line_long, crate::proofs::Forms::line_empty, crate::proofs::Forms::line_second, crate::proofs::Forms::line_alone, crate::proofs::Forms::line_fields, crate::proofs::Forms::single, crate::proofs::Forms::letter_space))]
pub fn parse(line: &[u8]) -> Request
    ensures { told result line.now ≡ Line.line_of line.now }
{
    if MAX_LINE < line.len() {
        return Request::Bad;
    }
    match line {
        [c] => alone(*c),
        [c, b' ', rest @ ..] => with_fields(*c, rest),
        _ => Request::Bad,
    }
}

// Holds the values after those that are held, as far as the line is long.
pub fn hold<T: Copy>(values: &[T], line: &mut [T], held: usize) -> usize
    ensures { Held values.now line.old held line.new result }
{
    let at = held.min(line.len());
    let end = at + values.len().min(line.len() - at);
    line[at..end].copy_from_slice(&values[..end - at]);
    end
}

// Adds one digit: None where the byte is none, or the value is not below 2^64.
fn add_digit(value: u64, b: u8) -> Option<u64>
    ensures { result ≡ Line.number_from value (b ∷ []) }
{
    if !b.is_ascii_digit() {
        return None;
    }
    value.checked_mul(10)?.checked_add((b - b'0') as u64)
}

// Reads a letter alone.
fn alone(c: u8) -> Request
    ensures { told result (c ∷ []) ≡ Line.alone c }
{
    match c {
        b'f' => Request::Front,
        b'b' => Request::Back,
        b'l' => Request::Lists,
        b'm' => Request::Members,
        b'k' => Request::Keeps,
        _ => Request::Bad,
    }
}

// Reads a letter and a field.
fn with_one(c: u8, x: &[u8]) -> Request
    ensures { told result (c ∷ (32 ∷ x.now)) ≡ Line.with_one c x.now }
{
    match c {
        b'r' => read_number(x).map_or(Request::Bad, Request::Removes),
        b'k' if !x.is_empty() && are_marks(x) => Request::Keeps,
        _ => Request::Bad,
    }
}

// Reads a letter and two fields.
fn with_two(c: u8, x: &[u8], y: &[u8]) -> Request
    ensures { (l : List ℕ) → told result l ≡ Line.with_two c x.now y.now }
{
    match (c, read_number(x), read_number(y)) {
        (b'a', Some(k), Some(v)) => Request::Adds(k, v),
        (b'i', Some(k), Some(v)) => Request::Inserts(k, v),
        _ => Request::Bad,
    }
}

// Reads a letter and the fields after its space.
#[tactic(auto, using(crate::proofs::Forms::fields_one, crate::proofs::Forms::fields_two))]
fn with_fields(c: u8, rest: &[u8]) -> Request
    ensures { told result (c ∷ (32 ∷ rest.now)) ≡ Line.fielded c (Line.fields rest.now) }
{
    match find(rest, b' ') {
        Some(n) => with_two(c, &rest[..n], &rest[n + 1..]),
        None => with_one(c, rest),
    }
}
