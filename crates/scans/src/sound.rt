// A table that the checks of rows let pass (01, "Refusal numbers": 10 and 4; that its lists fit together, 12, is in its own
// type). Where rows are marked, nothing asks for this again.
ghost use Rattle.std.specs.Prelude.{◌≤◌};
ghost use Rattle.laws.specs.Windows.{Good};
ghost use Rattle.spans.specs.Tables.{table_of, rows_in};

use spans::Table;

// No more rows than the ceiling, and none that ends before its start.
#[derive(Clone, Copy)]
pub struct Sound<'a> {
    pub table: Table<'a>,
    ghost few: { rows_in table ≤ 1048576 },
    ghost good: { Good (table_of table) },
}
