// Bytes and numbers written into a slice one after another. Not by `write!`: each of its calls may fail, and here there is room for all of them.
ghost use Rattle.std.specs.Prelude.{◌∷◌, [], ◌*◌, ◌≡◌, length};
ghost use Rattle.printing.specs.Text as Text;
ghost use Rattle.printing.specs.Put.{Room, Wrote};

// A slice, and how many of its first bytes are written. Is no `Vec`, since there is no heap.
#[derive(Drop)]
pub(crate) struct Writer<'a> {
    pub(crate) out: &'a mut [u8],
    pub(crate) at: usize,
}

// Writes a number in base ten to the front of `digits`.
#[tactic(auto, using(crate::proofs::Decimals::digits_decimal, crate::proofs::Decimals::few))]
pub fn decimal(n: u64, digits: &mut [u8; 20]) -> &[u8]
    ensures { result.now ≡ Text.decimal n }
{
    let count = io::decimal(n, digits);
    &digits[..count]
}

impl Writer<'_> {
    #[tactic(auto, using(crate::proofs::Puts::put_copied))]
    pub(crate) fn put(&mut self, bytes: &[u8])
        requires { Room (length bytes.now) self.old }
        ensures { Wrote self.old bytes.now self.new }
    {
        let end = self.at + bytes.len();
        self.out[self.at..end].copy_from_slice(bytes);
        self.at = end;
    }

    // Writes a number after a byte: a space or a colon.
    pub(crate) fn put_after(&mut self, mark: u8, n: u64)
        requires { Room 21 self.old }
        ensures { Wrote self.old (mark ∷ Text.decimal n) self.new }
    {
        self.put(&[mark]);
        self.put(decimal(n, &mut [0; 20]));
    }

    // Writes each number after a space.
    pub(crate) fn put_values(&mut self, values: &[u64])
        requires { Room (21 * length values.now) self.old }
        ensures { Wrote self.old (Text.values values.now) self.new }
    {
        for &value in values {
            self.put_after(b' ', value);
        }
    }

    // Writes a member and its round after a space, with a colon between.
    fn put_pair(&mut self, member: u64, round: u64)
        requires { Room 42 self.old }
        ensures { Wrote self.old (Text.paired (member, round)) self.new }
    {
        self.put_after(b' ', member);
        self.put_after(b':', round);
    }

    // Writes each member with its round.
    pub(crate) fn put_pairs(&mut self, members: &[u64], rounds: &[u64])
        requires { Room (42 * length members.now) self.old }
        ensures { Wrote self.old (Text.pairs members.now rounds.now) self.new }
    {
        for (&member, &round) in members.iter().zip(rounds) {
            self.put_pair(member, round);
        }
    }
}
