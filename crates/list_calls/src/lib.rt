// The public calls on lists that mark no purged split: plain folds and train times.
#![tactic(auto)]

pub mod naive_folds;
pub mod train_spans;

pub use naive_folds::naive_kfold;
pub use train_spans::ml_get_train_times;
