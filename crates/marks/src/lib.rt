// The marks of a split whose test rows are ranges, and their counts.
// Source: `build_split` of cross_validation.rs and `apply_purge_and_embargo` of backtesting_engine.rs (01, "Purge, embargo,
// marks"). Changed against them:
// - one byte a row in a lent list, where the Rust makes lists of indices;
// - one pass over the rows, which counts as it marks;
// - one engine for both rules, and where starts never decrease the pair rule goes the window's way (laws, Agreement);
// - the overlap count is a call of its own.
#![tactic(auto)]

ghost use Rattle.std.specs.Prelude.{◌≡◌, ◌≤◌, length};
ghost use Rattle.paper.specs.Marks.{marks_of};
ghost use Rattle.scans.specs.Falls.{starts_fall};
ghost use Rattle.spans.specs.Tables.{table_of, rows_in};
ghost use Rattle.paper.specs.Rules.{rule_of};
ghost use Rattle.blocks.specs.Held.{firsts, pasts, list_split, block_split, Blocks};
ghost use Rattle.marks.specs.Accepted.{Markable, Written};
ghost use Rattle.marks.specs.Ways.{way_of};

mod counts;

use blocks::{NO_BLOCK, NO_ROWS, bound_blocks, merge_adjacent};
use counts::one_more;
use folds::RowRange;
use paper::{Counts, Rule};
use rows::{Marker, Terms};
use scans::{Sound, starts_fall};

// The marks of the split that tests some ranges.
pub fn mark_ranges(terms: Terms, sound: &Sound, ranges: &[RowRange], marks: &mut [u8]) -> Counts
    requires { Markable sound.now.table ranges.now marks.old }
    ensures { Written (marks_of (rule_of terms.rule) (table_of sound.now.table) (list_split ranges.now terms.used terms.width)) marks.new result }
{
    let mut buffer = [NO_ROWS; 64];
    let blocks = merge_adjacent(ranges, &mut buffer);
    let rule = way(terms.rule, sound.table.starts);
    mark_blocks(Terms { rule, ..terms }, sound, blocks, marks)
}

// The rule to work by.
fn way(rule: Rule, starts: &[i64]) -> Rule
    ensures { result ≡ way_of rule (starts_fall starts.now) }
{
    match rule {
        Rule::Pair if starts_fall(starts) => Rule::Pair,
        _ => Rule::Window,
    }
}

// The marks of the split that tests the blocks.
fn mark_blocks(terms: Terms, sound: &Sound, blocks: &[RowRange], marks: &mut [u8]) -> Counts
    requires fits { length marks.old ≡ rows_in sound.now.table }
    requires blocks_bound { (length blocks.now ≤ 64) × Blocks (firsts blocks.now) (pasts blocks.now) (length blocks.now) (rows_in sound.now.table) }
    ensures { Written (marks_of (rule_of terms.rule) (table_of sound.now.table) (list_split blocks.now terms.used terms.width)) marks.new result }
{
    let mut buffer = [NO_BLOCK; 64];
    let blocks = bound_blocks(terms.rule, &sound.table, blocks, &mut buffer);
    let marker = Marker {
        terms,
        sound: *sound,
        blocks,
    };
    mark_rows(&marker, marks)
}

// The pass over the rows.
fn mark_rows(marker: &Marker, marks: &mut [u8]) -> Counts
    requires { length marks.old ≡ rows_in marker.now.sound.table }
    ensures { Written (marks_of (rule_of marker.now.terms.rule) (table_of marker.now.sound.table) (block_split marker.now.blocks.now marker.now.terms.used marker.now.terms.width)) marks.new result }
{
    let mut counts = Counts::default();
    for (i, mark) in marks.iter_mut().enumerate() {
        let m = marker.row_mark(i);
        *mark = m;
        counts = one_more(counts, m);
    }
    counts
}
