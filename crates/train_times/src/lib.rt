// Which spans may train beside given test spans, as one flag a row.
// Source: `ml_get_train_times` of cross_validation.rs (01, "Rows, times, settings"). Changed against it:
// - one flag for each row, 1 kept and 0 dropped, where the Rust gives the list of the spans kept;
// - a time is a signed 64-bit number.
#![tactic(auto)]

ghost use Rattle.std.specs.Prelude.{◌≡◌, ◌&&◌, length};
ghost use Rattle.std.specs.Int.Signed.{le_z};
ghost use Rattle.paper.specs.Spans.{span_of, lies_in, drops};
ghost use Rattle.paper.specs.Overlaps.{train_flags};
ghost use Rattle.spans.specs.Tables.{table_of, rows_in};
ghost use Rattle.train_times.specs.Dropped.{dropped_by_some};

use paper::Span;
use spans::Table;

// Does a time lie in a span?
fn lies_in(x: i64, t: Span) -> bool
    ensures { result ≡ lies_in x t }
{
    t.start <= x && x <= t.end
}

// Does span a hold the span t?
fn holds(a: Span, t: Span) -> bool
    ensures { result ≡ le_z a.start t.start && le_z t.end a.end }
{
    a.start <= t.start && t.end <= a.end
}

// Is span a dropped for the test span t?
fn dropped(t: Span, a: Span) -> bool
    ensures { result ≡ drops t a }
{
    lies_in(a.start, t) || lies_in(a.end, t) || holds(a, t)
}

// Is span a dropped for some test span? Whether there is one is asked apart, since it is the same for every row: so the
// compiler asks it once, and without test spans looks at no row.
fn dropped_by_some(a: Span, tests: &Table) -> bool
    ensures { result ≡ dropped_by_some tests.now.starts.now tests.now.ends.now a }
{
    0 < tests.len() && (0..tests.len()).any(|j| dropped(tests.span(j), a))
}

// Writes the flag of each row of a table beside given test spans: 1 where its span is kept.
pub fn write_flags(table: &Table, tests: &Table, flags: &mut [u8])
    requires { length flags.old ≡ rows_in table.now }
    ensures { flags.new ≡ train_flags (table_of table.now) (rows_in tests.now) (span_of tests.now.starts.now tests.now.ends.now) }
{
    for (i, flag) in flags.iter_mut().enumerate() {
        *flag = u8::from(!dropped_by_some(table.span(i), tests));
    }
}
