// The parts of a list's text, and their numbers and marks.
ghost use Rattle.std.specs.Prelude.{◌-◌, ◌≤◌, ◌≡◌, length, take};
ghost use Rattle.parsing.specs.Split.{Held};
ghost use Rattle.tapes.specs.Parts.{part_of, rest_of, grown, numbers_of, marks_of};

// What is left of a text.
#[derive(Drop)]
pub(crate) struct Parts<'a> {
    pub(crate) left: &'a [u8],
}

impl<'a> Parts<'a> {
    // Goes past the next semicolon, and refers to the bytes before it.
    pub(crate) fn next_part(&mut self) -> &'a [u8]
        ensures part { result.now ≡ part_of self.old.left.now }
        ensures left { self.new.left.now ≡ rest_of self.old.left.now }
    {
        let text = self.left;
        let n = parsing::gap(text, b';');
        self.left = &text[text.len().min(n + 1)..];
        &text[..n]
    }
}

// Reads the numbers of a text to the front of `room`, as far as there is room, and refers to them.
pub(crate) fn numbers_in<'a>(s: &[u8], room: &'a mut [u64]) -> &'a mut [u64]
    ensures { result.now ≡ take (length room.old) (numbers_of s.now) }
{
    let count = read_numbers(s, room);
    &mut room[..count]
}

// Reads the marks of a text likewise.
pub(crate) fn marks_in<'a>(s: &[u8], room: &'a mut [u8]) -> &'a [u8]
    ensures { result.now ≡ take (length room.old) (marks_of s.now) }
{
    let count = read_marks(s, room);
    &room[..count]
}

pub(crate) fn read_numbers(s: &[u8], numbers: &mut [u64]) -> usize
    ensures { Held (numbers_of s.now) numbers.old 0 numbers.new result }
{
    let mut count = 0;
    let mut begun = None;
    for &b in s {
        if b.is_ascii_digit() {
            begun = Some(grow(begun.unwrap_or(0), b));
        } else {
            count = parsing::hold(begun.as_slice(), numbers, count);
            begun = None;
        }
    }
    parsing::hold(begun.as_slice(), numbers, count)
}

fn read_marks(s: &[u8], marks: &mut [u8]) -> usize
    ensures { Held (marks_of s.now) marks.old 0 marks.new result }
{
    let mut count = 0;
    for &b in s {
        if b.is_ascii_digit() {
            count = parsing::hold(&[b - b'0'], marks, count);
        }
    }
    count
}

// Adds one digit to the number.
fn grow(n: u64, digit: u8) -> u64
    requires { 48 ≤ digit }
    ensures { result ≡ grown n digit }
{
    n.saturating_mul(10).saturating_add((digit - b'0') as u64)
}
