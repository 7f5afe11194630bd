// The public calls on split and path numbers.
#![tactic(auto)]

pub mod splits;

pub use splits::{
    folds_of_split, next_fold_set, number_of_folds, path_count, split_count, split_on_path,
    whole_path,
};
