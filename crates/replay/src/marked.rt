// The questions that mark a split of the table. Where the engine refused a whole run, some split of it must have no row to
// train on: the splits are asked for one after the other, up to the first that is refused.
use crate::answers::{self, Verdict};
use crate::reads::Cursor;
use crate::tables::Spans;
use paper::{Counts, Refusal, Rolling, Rule, Settings, SplitNumber};

// What a call answers on marks.
type Answer = Result<Counts, Refusal>;

// More splits than a recorded run has.
const MOST: u64 = 1_000_000;

fn window(line: &mut Cursor, answer: Answer, marks: &[u8]) -> Verdict {
    let told = match answer {
        Ok(counts) => answers::window(line, counts, marks),
        Err(r) => answers::refused(line, r),
    };
    Verdict::Line(told.is_some())
}

// The engine refused the whole run before it came to the split asked for, which may have a result, no row to train on, or a
// number past the end.
fn of_run(answer: Answer) -> bool {
    match answer {
        Ok(_) | Err(Refusal::NoSuchNumber | Refusal::EmptyTrain) => true,
        Err(_) => false,
    }
}

// Whether the first split that is refused has no row to train on.
fn some_empty<F: Fn(u64, &mut [u8]) -> Answer>(ask: F, marks: &mut [u8]) -> bool
    requires { F.IsAlwaysCallable ask }
{
    for split in 0..MOST {
        if let Err(r) = ask(split, marks) {
            return matches!(r, Refusal::EmptyTrain);
        }
    }
    false
}

fn pair<F: Fn(u64, &mut [u8]) -> Answer>(
    line: &mut Cursor,
    split: u64,
    ask: F,
    marks: &mut [u8],
) -> Verdict
    requires { F.IsAlwaysCallable ask }
{
    let answer = ask(split, marks);
    let mut whole = *line;
    if answers::whole_run(&mut whole).is_some() {
        return Verdict::Run(of_run(answer) && some_empty(ask, marks));
    }
    let told = match answer {
        Ok(counts) => answers::pair(line, counts, marks),
        Err(r) => answers::refused(line, r),
    };
    Verdict::Line(told.is_some())
}

// The lines of the window rule tell the split, those of the pair rule the split or that the whole run is refused.
fn told<F: Fn(u64, &mut [u8]) -> Answer>(
    line: &mut Cursor,
    rule: Rule,
    split: u64,
    ask: F,
    marks: &mut [u8],
) -> Verdict
    requires { F.IsAlwaysCallable ask }
{
    match rule {
        Rule::Window => {
            let answer = ask(split, marks);
            window(line, answer, marks)
        }
        Rule::Pair => pair(line, split, ask, marks),
    }
}

// N, the fraction and the split.
pub fn kfold(line: &mut Cursor, rule: Rule, spans: Spans, marks: &mut [u8]) -> Option<Verdict> {
    let folds = line.count()?;
    let settings = Settings::new(folds, line.read()?);
    let split = line.read()?;
    line.expect(b'=')?;
    let ask = |split: u64, out: &mut [u8]| {
        let split = SplitNumber(split);
        mark_calls::kfold(rule, spans.starts, spans.ends, settings, split, out)
    };
    Some(told(line, rule, split, ask, marks))
}

// N, k or m, the fraction and the split.
#[derive(Clone, Copy)]
struct Folds {
    settings: Settings,
    k: usize,
    split: u64,
}

impl Folds {
    fn read(line: &mut Cursor) -> Option<Folds> {
        let folds = line.count()?;
        let k = line.count()?;
        let settings = Settings::new(folds, line.read()?);
        let split = line.read()?;
        line.expect(b'=')?;
        Some(Folds { settings, k, split })
    }
}

pub fn cpcv(line: &mut Cursor, rule: Rule, spans: Spans, marks: &mut [u8]) -> Option<Verdict> {
    let q = Folds::read(line)?;
    let ask = |split: u64, out: &mut [u8]| {
        let split = SplitNumber(split);
        mark_calls::cpcv(rule, spans.starts, spans.ends, q.settings, q.k, split, out)
    };
    Some(told(line, rule, q.split, ask, marks))
}

pub fn walk_forward(line: &mut Cursor, spans: Spans, marks: &mut [u8]) -> Option<Verdict> {
    let q = Folds::read(line)?;
    let split = SplitNumber(q.split);
    let answer = mark_calls::walk_forward(spans.starts, spans.ends, q.settings, q.k, split, marks);
    Some(window(line, answer, marks))
}

// The minimum train size, the test size, the step, the fraction and the split.
pub fn rolling(line: &mut Cursor, spans: Spans, marks: &mut [u8]) -> Option<Verdict> {
    let layout = Rolling {
        min_train_size: line.count()?,
        test_size: line.count()?,
        step_size: line.count()?,
        pct_embargo: line.read()?,
    };
    let split = line.read()?;
    line.expect(b'=')?;
    let ask = |split: u64, out: &mut [u8]| {
        mark_calls::rolling(spans.starts, spans.ends, layout, SplitNumber(split), out)
    };
    Some(pair(line, split, ask, marks))
}
