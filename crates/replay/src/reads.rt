// The fields of a line, one after the other (01, "Report program", for their form). A field that is not of the form, or not what
// is expected, is `None`, and the caller gives up on the line.
use text::Spelled;

#[derive(Clone, Copy)]
pub struct Cursor<'a> {
    line: &'a [u8],
    at: usize,
}

impl<'a> Cursor<'a> {
    pub fn new(line: &'a [u8], at: usize) -> Cursor<'a> {
        Cursor { line, at }
    }

    // The bytes of the next field.
    pub fn bytes(&mut self) -> Option<&'a [u8]> {
        let end = fields::find(self.line, self.at, b'\t');
        let field = self.line.get(self.at..end)?;
        self.at = end.checked_add(1)?;
        Some(field)
    }

    // What the next field spells.
    pub fn read<T: Spelled>(&mut self) -> Option<T> {
        let (value, next) = fields::field_at(self.line, self.at)?;
        self.at = next;
        Some(value)
    }

    pub fn count(&mut self) -> Option<usize> {
        usize::try_from(self.read::<u64>()?).ok()
    }

    // The next field spells this; else the cursor stays.
    pub fn expect<T: Spelled + PartialEq + Copy>(&mut self, wanted: T) -> Option<()> {
        let (value, next) = fields::field_at::<T>(self.line, self.at)?;
        if value != wanted {
            return None;
        }
        self.at = next;
        Some(())
    }

    pub fn expect_count(&mut self, n: usize) -> Option<()> {
        self.expect(n as u64)
    }

    // One NaN is as good as another.
    pub fn expect_fraction(&mut self, wanted: f64) -> Option<()> {
        let value: f64 = self.read()?;
        if value == wanted || (value.is_nan() && wanted.is_nan()) {
            Some(())
        } else {
            None
        }
    }

    // No field is left.
    pub fn ended(&self) -> Option<()> {
        if self.at == self.line.len() + 1 {
            Some(())
        } else {
            None
        }
    }
}
