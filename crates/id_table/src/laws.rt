//! The table with its rows in a plain list, and the run of any calls over either form.
//!
//! A table is its rows, its identifiers and its limit. Only how the rows are kept differs, and that is behind `Rows`:
//! so what a run of calls answers and leaves is proved once, for each way to keep them.

pub use crate::calls::{Answer, Call, make_call, run};
pub use crate::list::{ListRows, ListTable};
pub use crate::rows::Rows;
pub use crate::table::TableOf;
