// The questions that need no table, and train times.
use crate::answers;
use crate::reads::Cursor;
use crate::tables::{Spans, Table};
use paper::{FoldSet, PathNumber, SplitNumber};

// The answer `F`: how many folds, and each.
fn expect_folds(line: &mut Cursor, set: FoldSet) -> Option<()> {
    line.expect(b'F')?;
    line.expect_count(set.count)?;
    for fold in set.as_slice() {
        line.expect_count(fold.0)?;
    }
    line.ended()
}

pub fn folds_of_split(line: &mut Cursor) -> Option<()> {
    let folds = line.count()?;
    let k = line.count()?;
    let split = SplitNumber(line.read()?);
    line.expect(b'=')?;
    match split_calls::folds_of_split(folds, k, split) {
        Ok(set) => expect_folds(line, set),
        Err(r) => answers::refused(line, r),
    }
}

// The answer `W`: how many splits, and each.
fn expect_splits(line: &mut Cursor, splits: &[u64]) -> Option<()> {
    line.expect(b'W')?;
    line.expect_count(splits.len())?;
    for split in splits {
        line.expect(*split)?;
    }
    line.ended()
}

// A path of at most 64 folds.
pub fn whole_path(line: &mut Cursor) -> Option<()> {
    let folds = line.count()?;
    let k = line.count()?;
    let path = PathNumber(line.read()?);
    line.expect(b'=')?;
    let mut room = [0u64; 64];
    let splits = room.get_mut(..folds)?;
    match split_calls::whole_path(folds, k, path, splits) {
        Ok(()) => expect_splits(line, splits),
        Err(r) => answers::refused(line, r),
    }
}

pub fn path_count(line: &mut Cursor) -> Option<()> {
    let folds = line.count()?;
    let k = line.count()?;
    line.expect(b'=')?;
    match split_calls::path_count(folds, k) {
        Ok(n) => {
            line.expect(b'V')?;
            line.expect(n)?;
            line.ended()
        }
        Err(r) => answers::refused(line, r),
    }
}

// Plain folds of at most 256 rows.
pub fn plain_fold(line: &mut Cursor) -> Option<()> {
    let n = line.count()?;
    let folds = line.count()?;
    let split = SplitNumber(line.read()?);
    line.expect(b'=')?;
    let mut room = [0u8; 256];
    let marks = room.get_mut(..n)?;
    match list_calls::naive_kfold(n, folds, split, marks) {
        Ok(_) => answers::marks_alone(line, marks),
        Err(r) => answers::refused(line, r),
    }
}

// The test spans stand in the line, and are read into the table that is lent for them.
pub fn train_times(
    line: &mut Cursor,
    spans: Spans,
    table: &mut Table,
    flags: &mut [u8],
) -> Option<()> {
    table.read(line)?;
    line.expect(b'=')?;
    let tests = table.spans();
    let answer = list_calls::ml_get_train_times(
        spans.starts,
        spans.ends,
        tests.starts,
        tests.ends,
        flags,
    );
    match answer {
        Ok(()) => answers::marks_alone(line, flags),
        Err(r) => answers::refused(line, r),
    }
}
