//! What binds a client to a connection or a backend: what its state says is what its list says.
//!
//! Each function has an empty body, and its contract is a law of families whose lists turns made.
#![tactic(auto)]

ghost use Rattle.window_laws.specs.Laws.{AsksRightly, ClientsAreBound};

/// While a client isn't gone, what binds it by its state is what binds it by its list: the connection and the backend of the
/// first choices that hold it since its last Bind, the backend of its last write, how many writes are live, and the moment at
/// which the last of them ended.
pub fn a_client_is_bound_as_its_list_says()
    ensures { ClientsAreBound }
{
    part_spec::a_fit_list_begins_with_all_of_it();
}

/// So the desk is asked for each request for what its client is bound to where the request came: for a Bind a free bind
/// connection, else a regular one as the client's choices and writes bind it. And it is asked only for a request that its
/// first check lets go on, and that doesn't go on in an exchange.
pub fn each_request_asks_for_what_binds_its_client()
    ensures { AsksRightly }
{
    part_spec::a_fit_list_begins_with_all_of_it();
    identity_laws::a_client_is_who_the_family_says();
}
