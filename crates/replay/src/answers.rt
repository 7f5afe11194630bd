// What a call answers against what stands in the line. `Some` says that they agree.
use crate::reads::Cursor;
use paper::{Counts, Refusal};

// Whether a line agrees. An answer `E` is that of the engine's whole run and is counted apart.
#[derive(Clone, Copy)]
pub enum Verdict {
    Line(bool),
    Run(bool),
}

// The answer `X`: the number, and what it carries.
pub fn refused(line: &mut Cursor, r: Refusal) -> Option<()> {
    line.expect(b'X')?;
    line.expect(r.number())?;
    carried(line, r)?;
    line.ended()
}

fn carried(line: &mut Cursor, r: Refusal) -> Option<()> {
    match r {
        Refusal::InvalidSplits(folds, n) => {
            line.expect_count(folds)?;
            line.expect_count(n)
        }
        Refusal::InvalidEmbargo(x) => line.expect_fraction(x),
        Refusal::InvalidInfoSet(row) => row_of(line, row),
        Refusal::IndexOutOfRange(i) => line.expect_count(i),
        _ => Some(()),
    }
}

// The engine does not tell the row.
fn row_of(line: &mut Cursor, row: usize) -> Option<()> {
    if line.expect(b'-').is_some() {
        return Some(());
    }
    line.expect_count(row)
}

// The digit of a mark, and where only the engine's letters are told: 2, 3 and 4 are `-`.
fn letter(mark: u8, engine: bool) -> u8 {
    match mark {
        2..=4 if engine => b'-',
        0..=5 => b'0' + mark,
        _ => b'?',
    }
}

// The next field has one byte for each mark, and it is the mark's.
pub fn expect_marks(line: &mut Cursor, marks: &[u8], engine: bool) -> Option<()> {
    let field = line.bytes()?;
    let same = field.len() == marks.len()
        && field
            .iter()
            .zip(marks)
            .all(|(byte, mark)| *byte == letter(*mark, engine));
    if same { Some(()) } else { None }
}

fn expect_counts(line: &mut Cursor, c: Counts) -> Option<()> {
    line.expect_count(c.train)?;
    line.expect_count(c.test)?;
    line.expect_count(c.purged)
}

// The answer `M` with the counts. The last field, the engine's overlap, is not compared.
pub fn window(line: &mut Cursor, c: Counts, marks: &[u8]) -> Option<()> {
    line.expect(b'M')?;
    expect_marks(line, marks, false)?;
    expect_counts(line, c)?;
    line.expect_count(c.embargoed)?;
    line.count()?;
    line.ended()
}

// The answer `P`. Its last field counts the marks 3 alone.
pub fn pair(line: &mut Cursor, c: Counts, marks: &[u8]) -> Option<()> {
    line.expect(b'P')?;
    expect_marks(line, marks, true)?;
    expect_counts(line, c)?;
    line.expect_count(marks.iter().filter(|mark| **mark == 3).count())?;
    line.ended()
}

// The answer `M` that tells marks or flags only.
pub fn marks_alone(line: &mut Cursor, marks: &[u8]) -> Option<()> {
    line.expect(b'M')?;
    expect_marks(line, marks, false)?;
    line.ended()
}

// The answer `E`.
pub fn whole_run(line: &mut Cursor) -> Option<()> {
    line.expect(b'E')?;
    line.ended()
}
