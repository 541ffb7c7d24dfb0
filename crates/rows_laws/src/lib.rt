//! What the rows of a regular connection are: its open Sents, by its list and the family.
//!
//! Each function has an empty body, and its contract is a law of joined lists that turns made.
#![tactic(auto)]

ghost use Rattle.rows_laws.specs.Laws.{RegularRowsAreOpen};

/// At each place of a regular connection's list the rows of its state are the Sents that are open there: under the same
/// name and identifier, of the same kind, with the moments of the Sent and of the last answer.
pub fn the_rows_of_a_regular_connection_are_its_open_sents()
    ensures { RegularRowsAreOpen }
{
    carried_laws::a_forward_says_of_its_operation_what_the_family_says();
    part_spec::a_fit_list_begins_with_all_of_it();
}
