// A first program against the bench: six labelled stretches in three folds, fold 0 tested, one row in ten embargoed.
// It prints how many rows train, or the number of the refusal.
#![tactic(auto)]

use bench::{Rule, Settings, SplitNumber};
use std::io;

fn main(rt: HostRuntime) -> io::Result<()> {
    let starts: [i64; 6] = [0, 10, 20, 30, 40, 50];
    let ends: [i64; 6] = [5, 20, 25, 35, 45, 55];
    let mut marks = [0u8; 6];
    let settings = Settings::new(3, 0.1);
    let split = SplitNumber(0);
    match bench::kfold(Rule::Window, &starts, &ends, settings, split, &mut marks) {
        Ok(counts) => print!(rt; "{}", counts.train),
        Err(refusal) => print!(rt; "{}", refusal.number()),
    }
}
