//! From who the clients are to the promises that rest on it: what a request carries upstream, and what each check and each
//! end of a client has as its cause. And what rests on what a Forward says: a Bind that expires takes its connection down,
//! what a bind connection's state says is what its list says, and a bind connection has one holder at a time.
//!
//! Each function has an empty body, and its contract is a law of joined lists; all but one ask that turns made the lists of
//! clients and connections.
#![tactic(auto)]

ghost use Rattle.caused_laws.specs.Laws.{BindConnectionsSay, CarriesOwnIdentity, CausedByChecks, ExpiredBindsAreTold, HoldersAreAlone};

/// Each message of a client has directly behind it what its first check wants, by the family; and each client's end has its
/// cause: its last check, its Unbind, or an event of its link.
pub fn clients_keep_what_their_checks_say()
    ensures { CausedByChecks }
{
    identity_laws::a_client_is_who_the_family_says();
}

/// Each request that went upstream carries the identity of its own client, as the family says it was where the request came.
pub fn a_sent_carries_its_own_clients_identity()
    ensures { CarriesOwnIdentity }
{
    identity_laws::a_client_is_who_the_family_says();
}

/// Each Bind that expires takes its connection down, in the very next entry.
pub fn an_expired_bind_takes_its_connection_down()
    ensures { ExpiredBindsAreTold }
{
    carried_laws::a_forward_says_of_its_operation_what_the_family_says();
}

/// What a bind connection's state says behind its list is what the list says by the family: which identifiers are next and
/// free, which were given, and which request is open to a message.
pub fn a_bind_connection_says_what_the_family_says()
    ensures { BindConnectionsSay }
{
    carried_laws::a_forward_says_of_its_operation_what_the_family_says();
    part_spec::a_fit_list_begins_with_all_of_it();
    bind_laws::a_bind_connection_says_what_its_list_says();
}

/// Each bind connection has one holder at a time: where a Bind is sent on it, the Bind before it is settled, and it came of
/// the same client, or ended otherwise than with saslBindInProgress.
pub fn a_bind_connection_has_one_holder_at_a_time()
    ensures { HoldersAreAlone }
{
    a_bind_connection_says_what_the_family_says();
}
