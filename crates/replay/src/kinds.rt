// The kinds of lines.

// In the order in which they are reported. No call answers the last two.
#[derive(Clone, Copy, PartialEq, Eq)]
pub enum Kind {
    Table,
    KfoldWindow,
    CpcvWindow,
    WalkForward,
    KfoldPair,
    CpcvPair,
    Rolling,
    FoldsOfSplit,
    WholePath,
    PathCount,
    PlainFold,
    TrainTimes,
    WholeRun,
    Unknown,
    OverlapCount,
    Joining,
}

// All of them, in the same order.
pub const KINDS: [Kind; 16] = [
    Kind::Table,
    Kind::KfoldWindow,
    Kind::CpcvWindow,
    Kind::WalkForward,
    Kind::KfoldPair,
    Kind::CpcvPair,
    Kind::Rolling,
    Kind::FoldsOfSplit,
    Kind::WholePath,
    Kind::PathCount,
    Kind::PlainFold,
    Kind::TrainTimes,
    Kind::WholeRun,
    Kind::Unknown,
    Kind::OverlapCount,
    Kind::Joining,
];

impl Kind {
    pub fn name(self) -> &'static str {
        match self {
            Kind::Table => "T",
            Kind::KfoldWindow => "KW",
            Kind::CpcvWindow => "CW",
            Kind::WalkForward => "WF",
            Kind::KfoldPair => "KP",
            Kind::CpcvPair => "CP",
            Kind::Rolling => "RP",
            Kind::FoldsOfSplit => "CF",
            Kind::WholePath => "PA",
            Kind::PathCount => "PC",
            Kind::PlainFold => "NK",
            Kind::TrainTimes => "TT",
            Kind::WholeRun => "E",
            Kind::Unknown => "?",
            Kind::OverlapCount => "OC",
            Kind::Joining => "JN",
        }
    }

    // The kind that a line opens with.
    pub fn of_line(line: &[u8]) -> Kind {
        match line {
            [b'T', b'\t', _, ..] => Kind::Table,
            [b'E', b'\t', _, ..] => Kind::WholeRun,
            [_, b'\t', ..] => Kind::Unknown,
            [a, b, b'\t', ..] => Kind::of_letters(*a, *b),
            _ => Kind::Unknown,
        }
    }

    fn of_letters(a: u8, b: u8) -> Kind {
        match (a, b) {
            (b'K', b'W') => Kind::KfoldWindow,
            (b'C', b'W') => Kind::CpcvWindow,
            (b'W', b'F') => Kind::WalkForward,
            (b'K', b'P') => Kind::KfoldPair,
            (b'C', b'P') => Kind::CpcvPair,
            (b'R', b'P') => Kind::Rolling,
            (b'C', b'F') => Kind::FoldsOfSplit,
            (b'P', b'A') => Kind::WholePath,
            (b'P', b'C') => Kind::PathCount,
            (b'N', b'K') => Kind::PlainFold,
            (b'T', b'T') => Kind::TrainTimes,
            (b'O', b'C') => Kind::OverlapCount,
            (b'J', b'N') => Kind::Joining,
            _ => Kind::Unknown,
        }
    }

    pub fn is_skipped(self) -> bool {
        matches!(self, Kind::OverlapCount | Kind::Joining)
    }
}
