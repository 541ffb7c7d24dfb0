//! What the desk hears of operations that ended: that it was told rightly, and with the right latency.
//!
//! Each function has an empty body, and its contract is a law of joined lists that turns made. The layer above may rely on
//! nothing else.
#![tactic(auto)]

ghost use Rattle.ended_laws.specs.Laws.{DeskLives, LatenciesAreRight};

/// Each letter that tells the desk the end of an operation tells its latency: of a regular connection the moment of its final
/// answer less that of its Sent, where this answer ended it, else none; and of a bind connection none.
pub fn latencies_are_right()
    ensures { LatenciesAreRight }
{
    carried_laws::a_forward_says_of_its_operation_what_the_family_says();
    part_spec::a_fit_list_begins_with_all_of_it();
}

/// The desk lives its life: it is asked once for each operation that its first check lets go on and no exchange takes; and it
/// hears each letter once, of what was told: of a connection a state that it came to; of an operation, for which it chose the
/// connection before, that it is over there, or that the choice came too late.
pub fn the_desk_lives()
    ensures { DeskLives }
{
    carried_laws::a_forward_says_of_its_operation_what_the_family_says();
    part_spec::a_fit_list_begins_with_all_of_it();
    caused_laws::a_bind_connection_says_what_the_family_says();
    joined_laws::shares_and_links_give_what_is_said_of_several_lists();
    window_laws::each_request_asks_for_what_binds_its_client();
}
