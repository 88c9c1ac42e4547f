//! A search: the stack of inputs that are being evaluated, and canonical goals that are asked of it.
pub use nts_explaining::nts_asking::query_of;
pub use nts_explaining::nts_evaluation::evaluate_input as evaluate_goal;
pub use nts_search::SearchGraph;
