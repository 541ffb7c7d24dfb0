//! The controls of a request: read as a list that is lent, looked up, and written with one more put first (RFC 4511,
//! section 4.1.11).
//!
//! The layer above may rely on this: a list is read exactly where the definitions of `ldap_spec` read one, and is then
//! that list, in its order; a rest with a control put first is that of the definitions, byte for byte, so that the
//! operation, the other controls and what stands behind the list stay as they were. Reading takes no memory.
#![tactic(auto)]

mod insertion;
mod lists;
mod reading;
#[cfg(test)]
mod tests;

pub use insertion::with_first;
pub use lists::{Control, Controls};
pub use reading::{has, of_rest};
