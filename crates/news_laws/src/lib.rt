//! In what order the desk hears of a connection.
//!
//! The function has an empty body, and its contract is a law of families whose lists turns made.
#![tactic(auto)]

ghost use Rattle.news_laws.specs.Laws.{HeardInOrder};

/// The desk hears of each connection that it is up, that it retired and that it is down in this order: of none behind a later one,
/// and a later one only where those before it that stand in the connection's list were heard.
pub fn the_desk_hears_of_each_connection_in_order()
    ensures { HeardInOrder }
{
    drained_laws::a_drained_connection_is_at_its_end();
    order_laws::a_connection_comes_up_before_it_retires();
}
