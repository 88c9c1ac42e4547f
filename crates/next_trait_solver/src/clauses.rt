//! A handler that is a list of clauses.
pub use nts_delegate::{Clause, Clauses, NormClause};
