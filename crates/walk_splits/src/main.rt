// Walks all splits of several N and k from each to the next, against their numbers and back, and shows the edges of what is
// accepted at their first, a middle and their last number. Every line goes by the public calls. What the lines must say
// stands in `stdout` and was worked out another way: the p-th split that holds g is g put into the p-th set of k - 1 of
// the other folds.
#![tactic(auto)]

mod lines;
mod walk;

use std::io;

// N and k of the walks.
const WALKS: [(usize, usize); 8] = [
    (2, 1),
    (4, 2),
    (5, 4),
    (6, 3),
    (10, 5),
    (13, 2),
    (11, 5),
    (64, 1),
];

// N and k that are refused, those at an edge among them.
const REFUSED: [(usize, usize); 7] = [(63, 29), (64, 27), (65, 2), (65, 0), (1, 1), (0, 5), (8, 8)];

// How many splits and paths, and some of the splits.
fn splits_of(rt: &impl Print, n: usize, k: usize, numbers: [u64; 4]) -> io::Result<()> {
    lines::show_count(rt, n, k)?;
    for s in numbers {
        lines::show_split(rt, n, k, s)?;
    }
    Ok(())
}

fn paths_of(rt: &impl Print, n: usize, k: usize, numbers: [u64; 4]) -> io::Result<()> {
    for p in numbers {
        lines::show_path(rt, n, k, p)?;
    }
    Ok(())
}

// The largest k that are accepted: of splits and of paths the first, a middle and the last number, and the one past it.
fn edges(rt: &impl Print) -> io::Result<()> {
    let splits = [
        0,
        232714176627630544,
        465428353255261087,
        465428353255261088,
    ];
    let paths = [
        0,
        100000000000000000,
        232714176627630543,
        232714176627630544,
    ];
    splits_of(rt, 62, 31, splits)?;
    paths_of(rt, 62, 31, paths)?;
    let splits = [
        0,
        400000000000000000,
        629308289804197436,
        629308289804197437,
    ];
    let paths = [
        0,
        123456789012345678,
        279692573246309971,
        279692573246309972,
    ];
    splits_of(rt, 63, 28, splits)?;
    paths_of(rt, 63, 28, paths)?;
    let splits = [
        0,
        500000000000000000,
        601557853127198687,
        601557853127198688,
    ];
    let paths = [
        0,
        200000000000000000,
        244382877832924466,
        244382877832924467,
    ];
    splits_of(rt, 64, 26, splits)?;
    paths_of(rt, 64, 26, paths)
}

fn main(rt: HostRuntime) -> io::Result<()> {
    for (n, k) in WALKS {
        walk::show_walk(&rt, n, k)?;
    }
    lines::show_count(&rt, 4, 2)?;
    paths_of(&rt, 4, 2, [0, 1, 2, 3])?;
    edges(&rt)?;
    for (n, k) in REFUSED {
        lines::show_count(&rt, n, k)?;
    }
    lines::show_split(&rt, 63, 29, 0)?;
    lines::show_path(&rt, 65, 2, 0)
}
