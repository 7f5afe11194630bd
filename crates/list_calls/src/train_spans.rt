// Which spans may train beside given test spans (01, "Rows, times, settings": `ml_get_train_times`).
// Source: `ml_get_train_times` of cross_validation.rs. Changed against it:
// - one flag for each row in a lent list, 1 kept and 0 dropped;
// - lists that do not fit together get 12, for either pair, and a lent list of another length 5.
ghost use Rattle.std.specs.Prelude.{◌≡◌, length, IfOk};
ghost use Rattle.paper.specs.Answers.{said};
ghost use Rattle.paper.specs.Checks.{checked, lent, train_times_checks};
ghost use Rattle.paper.specs.RowCalls.{train_times_call, flags_of};
ghost use Rattle.spans.specs.Tables.{Holds};
ghost use Rattle.checks.specs.Said.{said_checked};

use checks::numbers;
use paper::Refusal;
use row_checks::groups;
use spans::Table;

// 12, 12, 5. What passes is the table and the test spans.
fn check<'a>(
    starts: &'a [i64],
    ends: &'a [i64],
    tests: &'a [i64],
    testends: &'a [i64],
    room: usize,
) -> Result<(Table<'a>, Table<'a>), Refusal>
    ensures answer { said_checked result ≡ checked (train_times_checks starts.now ends.now tests.now testends.now room) tt }
    ensures passed { IfOk result (λ p. Holds p.0 starts.now ends.now × Holds p.1 tests.now testends.now × (room ≡ length starts.now)) }
{
    let table = groups::lengths(starts, ends)?;
    let Some(test) = Table::new(tests, testends) else {
        return Err(Refusal::LengthsDiffer);
    };
    numbers::list_length(room, table.len())?;
    Ok((table, test))
}

// Writes a flag for each row: 1 where its span is kept, 0 where some test span drops it.
pub fn ml_get_train_times(
    starts: &[i64],
    ends: &[i64],
    tests: &[i64],
    testends: &[i64],
    flags: &mut [u8],
) -> Result<(), Refusal>
    ensures answer { said result ≡ train_times_call starts.now ends.now tests.now testends.now (length flags.old) }
    ensures list { flags.new ≡ lent (train_times_call starts.now ends.now tests.now testends.now (length flags.old)) flags.old (flags_of starts.now ends.now tests.now testends.now) }
{
    let (table, test) = check(starts, ends, tests, testends, flags.len())?;
    train_times::write_flags(&table, &test, flags);
    Ok(())
}
