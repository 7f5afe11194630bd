// A table: two lent lists that are as long as each other (01, "Rows, times, settings").
// Source: `samples_info_sets` of cross_validation.rs, a list of pairs. Changed against it: the lists are lent apart, and that
// they fit together is a fact of the type, found once, where a table is made.
ghost use Rattle.std.specs.Prelude.{◌≡◌, ◌≢◌, ◌<◌, length, MatchOption};
ghost use Rattle.paper.specs.Spans.{span_of};

use paper::Span;

// The start and the end of each row.
#[derive(Clone, Copy)]
pub struct Table<'a> {
    pub starts: &'a [i64],
    pub ends: &'a [i64],
    ghost same: { length starts.now ≡ length ends.now },
}

impl<'a> Table<'a> {
    // The table of two lists, where they fit together.
    pub fn new(starts: &'a [i64], ends: &'a [i64]) -> Option<Self>
        ensures { MatchOption result (length starts.now ≢ length ends.now) (λ t. (t.starts.now ≡ starts.now) × (t.ends.now ≡ ends.now)) }
    {
        if starts.len() == ends.len() {
            Some(Table { starts, ends })
        } else {
            None
        }
    }

    // How many rows.
    pub fn len(&self) -> usize
        ensures { result ≡ length self.now.starts.now }
    {
        self.starts.len()
    }

    // The span of row i.
    pub fn span(&self, i: usize) -> Span
        requires { i < length self.now.starts.now }
        ensures { result ≡ span_of self.now.starts.now self.now.ends.now i }
    {
        Span {
            start: self.starts[i],
            end: self.ends[i],
        }
    }
}
