// A slice of bytes as one number (01, "Report program"). The Rust has nothing like it.
// Every function answers on any bytes; what it answers is what they spell, and `None` says that they spell nothing.
#![tactic(auto)]

ghost use Rattle.std.specs.Prelude.{◌≡◌, ◌<◌, ℕ, List, Option, Some};
ghost use Rattle.std.specs.Float.{binary64};
ghost use Rattle.std.specs.Float.Ieee.{of_bits};
ghost use Rattle.text.specs.Numbers.{digit_of, below, word_of, canonical, decimal_of, upward, downward, signed_of, double_of, letter_of};

// What bytes can spell.
pub trait Spelled: Sized {
    ghost spelled: { List ℕ → Option Self };

    fn read(s: &[u8]) -> Option<Self>
        ensures { result ≡ spelled s.now };
}

// A canonical decimal below 2^64.
impl Spelled for u64 {
    ghost spelled = { decimal_of };

    #[tactic(auto, unfolding(crate::specs::Numbers::decimal_of))]
    fn read(s: &[u8]) -> Option<u64> {
        if is_canonical(s) { word(s, 10) } else { None }
    }
}

// A canonical decimal from -2^63 up to 2^63 - 1.
impl Spelled for i64 {
    ghost spelled = { signed_of };

    #[tactic(auto, unfolding(crate::specs::Numbers::signed_of))]
    fn read(s: &[u8]) -> Option<i64> {
        match s {
            [b'-', digits @ ..] => negative(u64::read(digits)?),
            _ => positive(u64::read(s)?),
        }
    }
}

// The double whose bits 16 upper-case hex digits give.
impl Spelled for f64 {
    ghost spelled = { double_of };

    #[tactic(auto, unfolding(crate::specs::Numbers::double_of))]
    fn read(s: &[u8]) -> Option<f64> {
        if s.len() == 16 {
            Some(of_bits(word(s, 16)?))
        } else {
            None
        }
    }
}

// A field of one byte.
impl Spelled for u8 {
    ghost spelled = { letter_of };

    fn read(s: &[u8]) -> Option<u8> {
        match s {
            [byte] => Some(*byte),
            _ => None,
        }
    }
}

// Some byte, and no 0 in front of another.
fn is_canonical(s: &[u8]) -> bool
    ensures { result ≡ canonical s.now }
{
    match s {
        [] => false,
        [_] => true,
        [first, ..] => *first != b'0',
    }
}

// The number that the digits spell, if it has 64 bits.
fn word(s: &[u8], base: u64) -> Option<u64>
    requires { 0 < base }
    ensures { result ≡ word_of base s.now }
{
    let mut v: u64 = 0;
    for byte in s {
        let d = digit(*byte, base)?;
        v = v.checked_mul(base)?.checked_add(d)?;
    }
    Some(v)
}

// The digit that a byte is in a base: 0 to 9, and A to F for ten to fifteen (A is 65).
#[tactic(auto, using(std::proofs::lemmas::Bool::Decides::nat_tests), unfolding(crate::specs::Numbers::digit_of))]
fn digit(byte: u8, base: u64) -> Option<u64>
    ensures { result ≡ below base (digit_of byte) }
{
    let d = match byte {
        b'0'..=b'9' => byte - b'0',
        b'A'..=b'F' => byte - 55,
        _ => return None,
    };
    let d = u64::from(d);
    if d < base { Some(d) } else { None }
}

// The number itself, and its opposite, where 64 bits hold it. -0 is none.
fn positive(n: u64) -> Option<i64>
    ensures { result ≡ upward (Some n) }
{
    i64::try_from(n).ok()
}

fn negative(n: u64) -> Option<i64>
    ensures { result ≡ downward (Some n) }
{
    if n == 0 {
        return None;
    }
    0i64.checked_sub_unsigned(n)
}

// The patterns of a NaN lie above those of the infinities. `from_bits` takes none of them.
fn of_bits(bits: u64) -> f64
    ensures { result ≡ of_bits binary64 bits }
{
    if bits % 0x8000_0000_0000_0000 > 0x7ff0_0000_0000_0000 {
        return f64::NAN;
    }
    f64::from_bits(bits)
}
