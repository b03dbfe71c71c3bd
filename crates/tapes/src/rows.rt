// Bytes and numbers written into a slice one after another, as far as there is room.
ghost use Rattle.std.specs.Prelude.{◌<◌, ◌≤◌, ◌∷◌, length};
ghost use Rattle.printing.specs.Text.{decimal};
ghost use Rattle.tapes.specs.Kept.{Kept};
ghost use Rattle.tapes.specs.Printed.{rows};

// A slice, and how many of its first bytes are written. Is no `Vec`, since there is no heap, and no `Writer` of `printing`: a Writer's caller has
// seen that there is room, and a Page leaves out what has none.
#[derive(Drop)]
pub(crate) struct Page<'a> {
    pub(crate) out: &'a mut [u8],
    pub(crate) at: usize,
}

impl Page<'_> {
    pub(crate) fn put(&mut self, bytes: &[u8])
        ensures { Kept self.old bytes.now self.new }
    {
        self.at = parsing::hold(bytes, self.out, self.at);
    }

    // Writes a byte, and a number in base ten.
    pub(crate) fn put_after(&mut self, mark: u8, n: u64)
        ensures { Kept self.old (mark ∷ decimal n) self.new }
    {
        self.put(&[mark]);
        self.put(printing::decimal(n, &mut [0; 20]));
    }

    // Writes the numbers in lines of `width`, each line after a line end.
    pub(crate) fn put_rows(&mut self, values: &[u64], width: usize)
        requires { (0 < width) × (self.old.at ≤ length self.old.out.now) }
        ensures { Kept self.old (rows width 0 values.now) self.new }
    {
        for (i, &value) in values.iter().enumerate() {
            self.put_after(if i % width == 0 { b'\n' } else { b' ' }, value);
        }
    }
}
