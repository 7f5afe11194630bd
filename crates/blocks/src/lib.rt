// From ranges of test rows to blocks, and what belongs to a block: its window or hull, and the row where its embargo begins.
// Source: `merge_adjacent`, `embargo_windows` and the first lines of `build_split` of cross_validation.rs (01, "Purge,
// embargo, marks"). Changed against it:
// - blocks lie in a buffer of 64 places that the caller lends, where the Rust makes lists;
// - an embargo is kept as the row where it begins: its width is the same for all blocks, and no sum is made;
// - embargoes are found from the blocks, where the Rust finds the blocks again in a list of flags;
// - the hull is new: it settles most rows of the pair rule without a look at each test row.
#![tactic(auto)]

ghost use Rattle.std.specs.Prelude.{◌≡◌, ◌≤◌, ◌<◌, length};
ghost use Rattle.lists.specs.Base.{over};
ghost use Rattle.paper.specs.Spans.{later};
ghost use Rattle.paper.proofs.Times.{earlier};
ghost use Rattle.spans.specs.Tables.{table_of, rows_in};
ghost use Rattle.blocks.specs.Held.{time, firsts, pasts, steps_to, lowest, Blocks, Bound, BoundOf};
ghost use Rattle.blocks.specs.Joined.{Joins, place_of};

use folds::RowRange;
use paper::{Rule, Span};
use spans::Table;

// A block of test rows, its window or hull, and the row where its embargo begins.
#[derive(Clone, Copy)]
pub struct Block {
    pub rows: RowRange,
    pub window: Span,
    pub embargo: usize,
}

// What fills a buffer before ranges or blocks are laid down in it.
pub const NO_ROWS: RowRange = RowRange { first: 0, past: 0 };

pub const NO_BLOCK: Block = Block {
    rows: NO_ROWS,
    window: Span { start: 0, end: 0 },
    embargo: 0,
};

// ---- ranges that touch make one block

// The blocks of some ranges, laid down from the start of a buffer.
pub fn merge_adjacent<'a>(ranges: &[RowRange], buffer: &'a mut [RowRange; 64]) -> &'a [RowRange]
    requires { length ranges.now ≤ 64 }
    ensures { Joins (firsts ranges.now) (pasts ranges.now) (length ranges.now) (firsts result.now) (pasts result.now) (length result.now) }
{
    let mut blocks = 0;
    for range in ranges {
        let at = place(&buffer[..blocks], range.first);
        let first = if at < blocks {
            buffer[at].first
        } else {
            range.first
        };
        buffer[at] = RowRange {
            first,
            past: range.past,
        };
        blocks = at + 1;
    }
    &buffer[..blocks]
}

// The place of the block that a range from b on belongs to: the last block so far, if it ends there, or a new one.
fn place(blocks: &[RowRange], b: usize) -> usize
    ensures { (result ≡ place_of (pasts blocks.now) (length blocks.now) b) × (result ≤ length blocks.now) }
{
    match blocks.last() {
        Some(last) if last.past == b => blocks.len() - 1,
        _ => blocks.len(),
    }
}

// ---- one block

// The latest end of some rows.
pub fn latest_end(ends: &[i64], rows: RowRange) -> i64
    requires { (rows.first < rows.past) × (rows.past ≤ length ends.now) }
    ensures { result ≡ over later (time ends.now) rows.first rows.past }
{
    ends[rows.first + 1..rows.past]
        .iter()
        .copied()
        .fold(ends[rows.first], |latest, end| end.max(latest))
}

// The earliest start of some rows.
pub fn earliest_start(starts: &[i64], rows: RowRange) -> i64
    requires { (rows.first < rows.past) × (rows.past ≤ length starts.now) }
    ensures { result ≡ over earlier (time starts.now) rows.first rows.past }
{
    starts[rows.first + 1..rows.past]
        .iter()
        .copied()
        .fold(starts[rows.first], |earliest, start| earliest.min(start))
}

// From row e on, the first row that starts after the block's latest end: there its embargo begins.
pub fn embargo_from(starts: &[i64], e: usize, latest: i64) -> usize
    requires { e ≤ length starts.now }
    ensures { result ≡ steps_to starts.now latest e }
{
    for i in e..starts.len() {
        if latest < starts[i] {
            return i;
        }
    }
    starts.len()
}

// Where the window or the hull of some rows begins.
fn lower(rule: Rule, starts: &[i64], rows: RowRange) -> i64
    requires { (rows.first < rows.past) × (rows.past ≤ length starts.now) }
    ensures { result ≡ lowest rule (time starts.now) rows.first rows.past }
{
    match rule {
        Rule::Window => starts[rows.first],
        Rule::Pair => earliest_start(starts, rows),
    }
}

// A block with its window (window rule) or its hull (pair rule), and where its embargo begins.
fn bound_block(rule: Rule, table: &Table, rows: RowRange) -> Block
    requires { (rows.first < rows.past) × (rows.past ≤ rows_in table.now) }
    ensures { BoundOf rule (table_of table.now) rows result }
{
    let latest = latest_end(table.ends, rows);
    let window = Span {
        start: lower(rule, table.starts, rows),
        end: latest,
    };
    let embargo = embargo_from(table.starts, rows.past, latest);
    Block {
        rows,
        window,
        embargo,
    }
}

// ---- all blocks

// What is held of each block, laid down from the start of a buffer.
pub fn bound_blocks<'a>(
    rule: Rule,
    table: &Table,
    blocks: &[RowRange],
    buffer: &'a mut [Block; 64],
) -> &'a [Block]
    requires blocks { Blocks (firsts blocks.now) (pasts blocks.now) (length blocks.now) (rows_in table.now) }
    requires blocks_bound { length blocks.now ≤ 64 }
    ensures { Bound rule (table_of table.now) blocks.now result.now }
{
    for (j, rows) in blocks.iter().enumerate() {
        buffer[j] = bound_block(rule, table, *rows);
    }
    &buffer[..blocks.len()]
}
