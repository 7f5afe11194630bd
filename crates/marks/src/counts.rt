// Counts kept beside the marks. They move on by each mark without a branch.
ghost use Rattle.std.specs.Prelude.{◌≡◌};
ghost use Rattle.laws.specs.MarkCounts.{one_more, AtMost};

use paper::Counts;

// One mark more.
pub fn one_more(counts: Counts, m: u8) -> Counts
    requires { AtMost counts 1048576 }
    ensures { result ≡ one_more counts m }
{
    Counts {
        train: counts.train + usize::from(m == 0),
        test: counts.test + usize::from(m == 1),
        purged: counts.purged + usize::from((m == 2) | (m == 4)),
        embargoed: counts.embargoed + usize::from((m == 3) | (m == 4)),
    }
}
