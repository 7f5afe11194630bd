// One line a call.
use paper::{FoldNumber, PathNumber, Refusal, SplitNumber};
use split_calls::splits;
use std::{fmt, io};

// What a call answers with a number, as it is shown.
#[derive(Clone, Copy)]
struct Answer(Result<u64, Refusal>);

impl fmt::Display for Answer {
    fn fmt<W: fmt::Write>(&self, f: &mut fmt::Formatter<W>) -> fmt::Result {
        match self.0 {
            Ok(n) => write!(f, "{n}"),
            Err(r) => write!(f, "refused {}", r.number()),
        }
    }
}

// How many splits and how many paths.
pub fn show_count(rt: &impl Print, n: usize, k: usize) -> io::Result<()> {
    let count = Answer(splits::split_count(n, k));
    let paths = Answer(splits::path_count(n, k));
    println!(rt; "count {n} {k}: {count} {paths}")
}

// The folds of a split, and the number that they have.
pub fn show_split(rt: &impl Print, n: usize, k: usize, s: u64) -> io::Result<()> {
    print!(rt; "split {n} {k} {s}:")?;
    match splits::folds_of_split(n, k, SplitNumber(s)) {
        Ok(set) => {
            for fold in set.as_slice() {
                print!(rt; " {}", fold.0)?;
            }
            let number = Answer(splits::number_of_folds(n, k, set).map(|split| split.0));
            println!(rt; " is {number}")
        }
        Err(r) => println!(rt; " refused {}", r.number()),
    }
}

// Does split by split on the path say the same as the list?
fn agrees(l: &[u64], n: usize, k: usize, p: u64) -> bool {
    l.iter().enumerate().all(|(g, s)| {
        splits::split_on_path(n, k, PathNumber(p), FoldNumber(g)).is_ok_and(|split| split.0 == *s)
    })
}

// A path in a list of N places, of at most 65.
pub fn show_path(rt: &impl Print, n: usize, k: usize, p: u64) -> io::Result<()> {
    print!(rt; "path {n} {k} {p}:")?;
    let mut room = [0u64; 65];
    if n <= 65 {
        let out = &mut room[..n];
        match splits::whole_path(n, k, PathNumber(p), out) {
            Ok(()) => {
                for split in out.iter() {
                    print!(rt; " {split}")?;
                }
                if agrees(out, n, k, p) {
                    print!(rt; " agrees")?;
                }
            }
            Err(r) => print!(rt; " refused {}", r.number())?,
        }
    }
    println!(rt)
}
