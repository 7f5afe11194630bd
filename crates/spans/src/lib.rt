// The overlap of two spans, and a table of spans.
// Source: `intervals_overlap` of cross_validation.rs and `overlaps` of backtesting_engine.rs (01, "Rows, times, settings").
// Changed against it: a time is a signed 64-bit number, and a pair of times a struct.
#![tactic(auto)]

ghost use Rattle.std.specs.Prelude.{◌≡◌};
ghost use Rattle.paper.specs.Spans.{overlap};

pub mod table;

use paper::Span;
pub use table::Table;

// Do the spans overlap? Touching is overlap.
pub fn intervals_overlap(a: Span, b: Span) -> bool
    ensures { result ≡ overlap a b }
{
    a.start <= b.end && b.start <= a.end
}
