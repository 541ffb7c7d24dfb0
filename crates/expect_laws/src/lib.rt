//! What a client expects of connections: each operation that it forwarded and has no last answer of has a row that went there,
//! or its Drop was given.
//!
//! The function has an empty body, and its contract is a law of lists that turns made.
#![tactic(auto)]

ghost use Rattle.expect_laws.specs.Laws.{EachRowedOrDropped};

/// Each operation other than a Bind that a client expects of a connection has a row in the client's state that went there, or
/// the client's list gave its Drop: where a client ends an operation itself, the connection is told.
pub fn what_is_expected_has_a_row_or_was_dropped()
    ensures { EachRowedOrDropped }
{}
