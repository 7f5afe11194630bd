// A line put together in a lent buffer (01, "Report program"). The Rust has nothing like it.
// Each call puts a text behind the last. A text that does not fit is not written; the place then lies past the buffer's end,
// where nothing fits, so a caller asks once, for the whole line.
#![tactic(auto)]

ghost use Rattle.std.specs.Prelude.{◌≡◌, [], ◌∷◌, ◌<◌, ◌≤◌, length, take, MatchOption};
ghost use Rattle.text.specs.Numbers.{decimal_text};
ghost use Rattle.lines.specs.Appended.{Appended};

// What is written stands in front of `at`.
#[derive(Drop)]
pub struct LineBuffer<'a> {
    pub bytes: &'a mut [u8],
    pub at: usize,
}

impl<'a> LineBuffer<'a> {
    pub fn new(bytes: &'a mut [u8]) -> LineBuffer<'a>
        ensures same_reference { result.bytes.ghost_name ≡ bytes.entry.ghost_name }
        ensures same_bytes { result.bytes.now ≡ bytes.old }
        ensures empty { result.at ≡ 0 }
    {
        LineBuffer { bytes, at: 0 }
    }

    pub fn append(&mut self, src: &[u8])
        ensures same_reference { self.new.bytes.ghost_name ≡ self.old.bytes.ghost_name }
        ensures written { Appended self.old.bytes.now self.old.at src.now self.new.bytes.now self.new.at }
    {
        let out = &mut *self.bytes;
        match self.at.checked_add(src.len()) {
            Some(end) if end <= out.len() => {
                out[self.at..end].copy_from_slice(src);
                self.at = end;
            }
            _ => self.at = out.len() + 1,
        }
    }

    pub fn append_byte(&mut self, byte: u8)
        ensures same_reference { self.new.bytes.ghost_name ≡ self.old.bytes.ghost_name }
        ensures written { Appended self.old.bytes.now self.old.at (byte ∷ []) self.new.bytes.now self.new.at }
    {
        let one = [byte];
        self.append(&one)
    }

    // The decimal of n, without a leading zero.
    pub fn append_decimal(&mut self, n: u64)
        ensures same_reference { self.new.bytes.ghost_name ≡ self.old.bytes.ghost_name }
        ensures written { Appended self.old.bytes.now self.old.at (decimal_text n) self.new.bytes.now self.new.at }
    {
        let mut digits = [0u8; 20];
        let k = io::decimal(n, &mut digits);
        self.append(&digits[..k])
    }

    // What is written, if all of it fitted.
    pub fn text(&self) -> Option<&[u8]>
        ensures { MatchOption result (length self.now.bytes.now < self.now.at) (λ r. (self.now.at ≤ length self.now.bytes.now) × (r.now ≡ take self.now.at self.now.bytes.now)) }
    {
        self.bytes.get(..self.at)
    }
}
