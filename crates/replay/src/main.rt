// Asks the public calls every question of the recorded list and compares. For each kind of line: how many agree, how many
// differ, and the number of the first line that differs, or 0. A line that is not of the form differs.
#![tactic(auto)]

ghost use Rattle.std.specs.Prelude.{◌≤◌, IfOk, length};

mod answers;
mod kinds;
mod listed;
mod marked;
mod reads;
mod tables;
mod tally;

use answers::Verdict;
use kinds::Kind;
use paper::Rule;
use reads::Cursor;
use std::io;
use std::io::Read;
use tables::Table;
use tally::Tallies;

// Is it asked of the table? The others need none.
fn needs_table(kind: Kind) -> bool {
    matches!(
        kind,
        Kind::KfoldWindow
            | Kind::CpcvWindow
            | Kind::WalkForward
            | Kind::KfoldPair
            | Kind::CpcvPair
            | Kind::Rolling
            | Kind::TrainTimes
    )
}

// The questions about the table: a split of it, or train times.
fn about_table(kind: Kind, line: &mut Cursor, table: &Table, tests: &mut Table) -> Option<Verdict> {
    let mut room = [0u8; 256];
    let marks = &mut room[..table.rows()];
    let spans = table.spans();
    match kind {
        Kind::KfoldWindow => marked::kfold(line, Rule::Window, spans, marks),
        Kind::KfoldPair => marked::kfold(line, Rule::Pair, spans, marks),
        Kind::CpcvWindow => marked::cpcv(line, Rule::Window, spans, marks),
        Kind::CpcvPair => marked::cpcv(line, Rule::Pair, spans, marks),
        Kind::WalkForward => marked::walk_forward(line, spans, marks),
        Kind::Rolling => marked::rolling(line, spans, marks),
        Kind::TrainTimes => {
            listed::train_times(line, spans, tests, marks)?;
            Some(Verdict::Line(true))
        }
        _ => None,
    }
}

// The questions that need no table.
fn plain(kind: Kind, line: &mut Cursor) -> Option<()> {
    match kind {
        Kind::FoldsOfSplit => listed::folds_of_split(line),
        Kind::WholePath => listed::whole_path(line),
        Kind::PathCount => listed::path_count(line),
        Kind::PlainFold => listed::plain_fold(line),
        Kind::OverlapCount | Kind::Joining => Some(()),
        _ => None,
    }
}

#[derive(Drop)]
struct Replay {
    table: Table,
    tests: Table,
    tallies: Tallies,
    number: u64,
}

impl Replay {
    fn new() -> Replay {
        Replay {
            table: Table::new(),
            tests: Table::new(),
            tallies: Tallies::new(),
            number: 0,
        }
    }

    fn all(text: &[u8]) -> Replay {
        let mut replay = Replay::new();
        for line in text.split_inclusive(|byte| *byte == b'\n') {
            replay.line(line.strip_suffix(b"\n").unwrap_or(line));
        }
        replay
    }

    fn line(&mut self, line: &[u8]) {
        self.number = self.number.wrapping_add(1);
        let kind = Kind::of_line(line);
        let (kind, same) = match self.verdict(kind, line) {
            Verdict::Line(same) => (kind, same),
            Verdict::Run(same) => (Kind::WholeRun, same),
        };
        self.tallies.note(kind, same, self.number);
    }

    // A table is read, and is there for the lines after it. The name of a table has one letter, and those of questions two.
    fn verdict(&mut self, kind: Kind, line: &[u8]) -> Verdict {
        if kind == Kind::Table {
            let mut fields = Cursor::new(line, 2);
            let read = self.table.read(&mut fields);
            return Verdict::Line(read.is_some() && fields.ended().is_some());
        }
        let mut fields = Cursor::new(line, 3);
        if needs_table(kind) {
            about_table(kind, &mut fields, &self.table, &mut self.tests).unwrap_or(Verdict::Line(
                false,
            ))
        } else {
            Verdict::Line(plain(kind, &mut fields).is_some())
        }
    }
}

// Room for the whole list. Kept out of `main`, whose proof would go into its million places.
fn room() -> [u8; 1048576] {
    [0u8; 1048576]
}

// Reads until the buffer is full or the input ends, and answers how many bytes it put at the start.
fn read_full(rt: &impl Input, buf: &mut [u8]) -> io::Result<usize>
    ensures { IfOk result (λ n. n ≤ length buf.new) }
{
    let mut reader = rt.reader();
    let mut done = 0;
    while done < buf.len() {
        let n = reader.read(&mut buf[done..])?;
        if n == 0 {
            break;
        }
        done += n;
    }
    Ok(done)
}

fn main(rt: HostRuntime) -> io::Result<()> {
    let mut buf = room();
    let n = read_full(&rt, &mut buf)?;
    let told = Replay::all(&buf[..n]).tallies;
    told.show(&rt)?;
    told.show_skipped(&rt)
}
