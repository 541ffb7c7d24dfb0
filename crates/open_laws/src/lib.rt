//! What upstream connections let stand in their lists: each connection's list is one of a connection's life.
//!
//! Each function has an empty body, and its contract is a law of joined lists that turns made. The layer above may rely on
//! nothing else.
#![tactic(auto)]

ghost use Rattle.open_laws.specs.Laws.{ConnectionsLive};

/// Each connection lives a connection's life: it begins with Linked, sends nothing before it is up, and has late letters
/// alone behind its end; it pauses as it may; what expires, and what is abandoned, is open there, or expired in the entry
/// before; and what is missed was to go there.
pub fn connections_live()
    ensures { ConnectionsLive }
{
    carried_laws::a_forward_says_of_its_operation_what_the_family_says();
    part_spec::a_fit_list_begins_with_all_of_it();
    caused_laws::a_bind_connection_says_what_the_family_says();
    sent_laws::a_request_is_sent_where_its_first_check_let_it_go();
}
