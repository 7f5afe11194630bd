// For each kind, how many lines agree, how many differ, and which line is the first that differs.
use crate::kinds::{KINDS, Kind};
use std::io;

#[derive(Clone, Copy)]
struct Tally {
    kind: Kind,
    agree: u64,
    differ: u64,
    first: Option<u64>,
}

impl Tally {
    fn new(kind: Kind) -> Tally {
        Tally {
            kind,
            agree: 0,
            differ: 0,
            first: None,
        }
    }

    fn note(&mut self, same: bool, number: u64) {
        if same {
            self.agree = self.agree.wrapping_add(1);
        } else {
            self.differ = self.differ.wrapping_add(1);
            self.first = self.first.or(Some(number));
        }
    }
}

#[derive(Drop)]
pub struct Tallies {
    of: [Tally; 16],
}

impl Tallies {
    pub fn new() -> Tallies {
        Tallies {
            of: KINDS.map(Tally::new),
        }
    }

    pub fn note(&mut self, kind: Kind, same: bool, number: u64) {
        if let Some(tally) = self.of.get_mut(kind as usize) {
            tally.note(same, number);
        }
    }

    pub fn show(&self, rt: &impl Print) -> io::Result<()> {
        for t in &self.of {
            if !t.kind.is_skipped() {
                let name = t.kind.name();
                let first = t.first.unwrap_or(0);
                println!(rt; "{name}\t{}\t{}\t{first}", t.agree, t.differ)?;
            }
        }
        Ok(())
    }

    pub fn show_skipped(&self, rt: &impl Print) -> io::Result<()> {
        print!(rt; "skipped")?;
        for t in &self.of {
            if t.kind.is_skipped() {
                let name = t.kind.name();
                print!(rt; "\t{name}\t{}", t.agree)?;
            }
        }
        print!(rt; "\n")
    }
}
