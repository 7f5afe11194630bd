// The split bench: what a program imports. Every call takes any arguments, and answers with its result or with one of 01's
// refusals; none asks anything of its caller. A program needs no more in crates.txt than `bench`.
#![tactic(auto)]

// The value types.
pub use paper::{
    Counts, FoldNumber, FoldSet, PathNumber, Refusal, Rolling, Rule, Settings, Span, SplitNumber,
};

// Split and path numbers.
pub use split_calls::{
    folds_of_split, next_fold_set, number_of_folds, path_count, split_count, split_on_path,
    whole_path,
};

// Marks of one split.
pub use mark_calls::{cpcv, kfold, rolling, walk_forward};

// Plain folds and train times.
pub use list_calls::{ml_get_train_times, naive_kfold};
