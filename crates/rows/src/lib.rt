// One row of a split: is it tested, purged, embargoed, and which mark is due. Each is a search over the blocks.
// Source: `build_split` of cross_validation.rs and `apply_purge_and_embargo` of backtesting_engine.rs (01, "Purge, embargo,
// marks"). Changed against them:
// - one row at a time and all blocks, where the Rust takes one block at a time and all rows, with a list of flags for each
//   question;
// - no flags are kept: a row's place tells whether it is tested and embargoed;
// - the pair rule looks at the test rows of a block only if the row overlaps their hull;
// - the searches are loops: by `any` the pass over the rows took a fifth longer.
#![tactic(auto)]

ghost use Rattle.std.specs.Prelude.{◌≡◌, false, ◌≤◌, ◌<◌, length};
ghost use Rattle.lists.specs.Base.{any_from};
ghost use Rattle.paper.specs.Marks.{mark, mark_of};
ghost use Rattle.laws.specs.Ranges.{ranged};
ghost use Rattle.laws.specs.Worker.{covers};
ghost use Rattle.spans.specs.Tables.{table_of, rows_in};
ghost use Rattle.paper.specs.Rules.{rule_of};
ghost use Rattle.blocks.specs.Held.{block_firsts, block_pasts, windows, embargoes, block_split};
ghost use Rattle.rows.specs.Asked.{meets_at, hit_by, purged_by, covered_by, Held};

use blocks::Block;
use folds::RowRange;
use paper::{Rule, Span};
use scans::Sound;
use spans::{Table, intervals_overlap};

// By what rows are marked: the rule, how many of them take part, and how many an embargo covers.
#[derive(Clone, Copy)]
pub struct Terms {
    pub rule: Rule,
    pub used: usize,
    pub width: usize,
}

// The blocks of a split, and all else that a row is held against.
#[derive(Clone, Copy)]
pub struct Marker<'a> {
    pub terms: Terms,
    pub sound: Sound<'a>,
    pub blocks: &'a [Block],
    ghost held: { Held terms.rule sound.table blocks.now },
}

impl<'a> Marker<'a> {
    // The mark of row i. Rows from `used` on take no part.
    pub fn row_mark(&self, i: usize) -> u8
        requires { i < rows_in self.now.sound.table }
        ensures { result ≡ mark_of (rule_of self.now.terms.rule) (table_of self.now.sound.table) (block_split self.now.blocks.now self.now.terms.used self.now.terms.width) i }
    {
        if self.tested(i) {
            return 1;
        }
        if self.terms.used <= i {
            return 5;
        }
        left_mark(self.purged(self.sound.table.span(i)), self.embargoed(i))
    }

    // Is row i in one of the blocks?
    fn tested(&self, i: usize) -> bool
        ensures { result ≡ ranged (block_firsts self.now.blocks.now) (block_pasts self.now.blocks.now) (length self.now.blocks.now) i }
    {
        for block in self.blocks {
            if block.rows.contains(i) {
                return true;
            }
        }
        false
    }

    // Is a row with span a purged by some block?
    fn purged(&self, a: Span) -> bool
        ensures { result ≡ purged_by self.now.terms.rule (table_of self.now.sound.table) (block_firsts self.now.blocks.now) (block_pasts self.now.blocks.now) (windows self.now.blocks.now) a (length self.now.blocks.now) }
    {
        for block in self.blocks {
            if hit(self.terms.rule, &self.sound.table, a, block) {
                return true;
            }
        }
        false
    }

    // Is row i one of the width rows that the embargo of some block covers?
    fn embargoed(&self, i: usize) -> bool
        ensures { result ≡ covered_by (embargoes self.now.blocks.now) self.now.terms.width i (length self.now.blocks.now) }
    {
        for block in self.blocks {
            if covered(block.embargo, self.terms.width, i) {
                return true;
            }
        }
        false
    }
}

// The mark of a row that is not tested and takes part.
fn left_mark(purged: bool, embargoed: bool) -> u8
    ensures { result ≡ mark false false purged embargoed }
{
    match (purged, embargoed) {
        (false, false) => 0,
        (true, false) => 2,
        (false, true) => 3,
        (true, true) => 4,
    }
}

// Does the block purge a row with span a? One that misses the window or hull is settled. For one that does not, the window
// rule asks no more, and the pair rule looks at the rows.
fn hit(rule: Rule, table: &Table, a: Span, block: &Block) -> bool
    requires { (block.now.rows.first ≤ block.now.rows.past) × (block.now.rows.past ≤ rows_in table.now) }
    ensures { result ≡ hit_by rule (table_of table.now) a block.now.window block.now.rows.first block.now.rows.past }
{
    intervals_overlap(a, block.window)
        && match rule {
            Rule::Window => true,
            Rule::Pair => meets_row(table, a, block.rows),
        }
}

// Does a span overlap that of one of some rows? Kept out of the pass over the rows: there, the loop took twice the time.
#[inline(never)]
fn meets_row(table: &Table, a: Span, rows: RowRange) -> bool
    requires { (rows.first ≤ rows.past) × (rows.past ≤ rows_in table.now) }
    ensures { result ≡ any_from (meets_at (table_of table.now) a) rows.first rows.past }
{
    for i in rows.first..rows.past {
        if intervals_overlap(a, table.span(i)) {
            return true;
        }
    }
    false
}

// Is row i one of the width rows from w on? No sum is made that could wrap.
fn covered(w: usize, width: usize, i: usize) -> bool
    ensures { result ≡ covers w width i }
{
    w <= i && i - w < width
}
