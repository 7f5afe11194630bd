// From the first split to the last, each from the one before it.
use paper::{FoldSet, Refusal, SplitNumber};
use split_calls::splits;
use std::io;

// The set has the number, and the number has the set.
fn right(n: usize, k: usize, set: FoldSet, s: u64) -> Result<bool, Refusal> {
    let there = splits::folds_of_split(n, k, SplitNumber(s))?;
    let back = splits::number_of_folds(n, k, set)?;
    Ok(there == set && back.0 == s)
}

// How many splits there are, and how many sets of the walk are right, up to the last or to the first that is wrong.
fn walked(n: usize, k: usize) -> Result<(u64, u64), Refusal> {
    let many = splits::split_count(n, k)?;
    let mut set = splits::folds_of_split(n, k, SplitNumber(0))?;
    for s in 0..many {
        if !right(n, k, set, s)? {
            return Ok((many, s));
        }
        let Some(next) = splits::next_fold_set(n, k, set)? else {
            return Ok((many, s + 1));
        };
        set = next;
    }
    // There was a set after the last.
    Ok((many, 0))
}

pub fn show_walk(rt: &impl Print, n: usize, k: usize) -> io::Result<()> {
    match walked(n, k) {
        Ok((many, right)) => println!(rt; "walked {n} {k}: {right} of {many}"),
        Err(r) => println!(rt; "walked {n} {k}: refused {}", r.number()),
    }
}
