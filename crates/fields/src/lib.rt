// The next byte of a kind, and one field of a line, from a place on (01, "Report program"). The Rust has nothing like it.
// Every function answers on any bytes and any place. A line of known fields is read by one call a field, each from the
// place that the one before handed on; the place past the end says that the last field has been read.
#![tactic(auto)]

ghost use Rattle.std.specs.Prelude.{◌≡◌, ◌≤◌, length};
ghost use Rattle.fields.specs.Parts.{find_from, Ends, field_as};

use text::Spelled;

// The first place from `from` on that holds the byte, else the length, or `from` where that is more.
pub fn find(s: &[u8], from: usize, byte: u8) -> usize
    ensures { result ≡ find_from byte s.now from }
{
    (from..s.len())
        .find(|i| s[*i] == byte)
        .unwrap_or(from.max(s.len()))
}

// Where the field that begins at `from` ends.
fn field_end(s: &[u8], from: usize) -> usize
    requires { from ≤ length s.now }
    ensures { Ends s.now from result }
{
    find(s, from, b'\t')
}

// What the field that begins at `from` spells, and the place where the next begins; past the end of the line, if it was the last.
pub fn field_at<T: Spelled>(s: &[u8], from: usize) -> Option<(T, usize)>
    ensures { result ≡ field_as T.spelled s.now from }
{
    if s.len() < from {
        return None;
    }
    let end = field_end(s, from);
    let value = T::read(&s[from..end])?;
    Some((value, end + 1))
}
