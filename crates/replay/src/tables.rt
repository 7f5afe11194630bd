// Spans as a line tells them: how many, and each one's start and end.
ghost use Rattle.std.specs.Prelude.{◌≤◌};

use crate::reads::Cursor;

// Starts and ends as the calls take them.
#[derive(Clone, Copy)]
pub struct Spans<'a> {
    pub starts: &'a [i64],
    pub ends: &'a [i64],
}

#[derive(Drop)]
pub struct Table {
    starts: [i64; 256],
    ends: [i64; 256],
    rows: usize,
    ghost in_room: { rows ≤ 256 },
}

impl Table {
    pub fn new() -> Table {
        Table {
            starts: [0; 256],
            ends: [0; 256],
            rows: 0,
        }
    }

    // At most 256 spans. Where the line is not of the form, the spans up to there are read, and behind them stand older ones.
    pub fn read(&mut self, line: &mut Cursor) -> Option<()> {
        self.rows = 0;
        let rows = line.count()?;
        if rows > 256 {
            return None;
        }
        self.rows = rows;
        for i in 0..rows {
            let start = line.read()?;
            let end = line.read()?;
            self.starts[i] = start;
            self.ends[i] = end;
        }
        Some(())
    }

    // As many as there are marks to ask for.
    pub fn rows(&self) -> usize
        ensures { result ≤ 256 }
    {
        self.rows
    }

    pub fn spans(&self) -> Spans<'_> {
        Spans {
            starts: &self.starts[..self.rows],
            ends: &self.ends[..self.rows],
        }
    }
}
