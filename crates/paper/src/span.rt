// The label of a row: from its start to its end, in microseconds. Only their order matters (01, "Rows, times, settings").
#[derive(Clone, Copy)]
pub struct Span {
    pub start: i64,
    pub end: i64,
}
