//! What a client is told, and when: a law of families whose lists turns made.
//!
//! Each function has an empty body, and its contract is a law. A layer above may rely on them for each such family.
#![tactic(auto)]

ghost use Rattle.told_laws.specs.Laws.{OutsAreChosen, OwnAnswersAreCaused, RefusalsAreCaused};

/// No client is told anything for a live operation before the choice of a connection for it, but what the proxy tells of its
/// own: for the first check of the operation, which then doesn't go to the desk, or for a Cancel, right behind its In.
pub fn a_client_is_told_nothing_before_the_choice()
    ensures { OutsAreChosen }
{
    identity_laws::a_client_is_who_the_family_says();
}

/// Each refusal by a choice of the desk or by an operation's first check has its cause, and so has each answer to a Cancel; and
/// only a Bind whose identity is asked for is refused for want of one.
pub fn an_answer_of_the_proxys_own_has_its_cause()
    ensures { OwnAnswersAreCaused }
{
    identity_laws::a_client_is_who_the_family_says();
}

/// Each refusal has its cause: a choice, the operation's first check, what came of it at its connection, or an answer to Who Am
/// I that told no identity; and so has each answer to a Cancel. An operation that is refused because it expired did expire at a
/// connection to which it was forwarded; one that is refused because it was lost was missed there, or was open there when the
/// connection went down.
pub fn a_refusal_has_its_cause()
    ensures { RefusalsAreCaused }
{
    identity_laws::a_client_is_who_the_family_says();
    carried_laws::a_forward_says_of_its_operation_what_the_family_says();
    part_spec::a_fit_list_begins_with_all_of_it();
    caused_laws::a_bind_connection_says_what_the_family_says();
    fifo_laws::an_operation_is_sent_once();
}
