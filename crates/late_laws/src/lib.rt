//! What an operation's letters tell: a success that was kept back tells its identity, and a letter that comes too late is of an
//! operation of its client's own. Laws of joined lists, the first of families whose lists turns made.
//!
//! Each function has an empty body, and its contract is a law. A layer above may rely on them for each such family.
#![tactic(auto)]

ghost use Rattle.late_laws.specs.Laws.{LatesAreOwn, SuccessesAreKnown};

/// A success that was kept back goes out only with a readable identity: the answer that settles its Bind is a success that
/// tells one. And no other Bind or request is refused for want of an identity.
pub fn a_kept_success_goes_out_with_its_identity()
    ensures { SuccessesAreKnown }
{
    fifo_laws::an_operation_is_sent_once();
    carried_laws::a_forward_says_of_its_operation_what_the_family_says();
    part_spec::a_fit_list_begins_with_all_of_it();
    caused_laws::a_bind_connection_says_what_the_family_says();
    told_laws::an_answer_of_the_proxys_own_has_its_cause();
}

/// Each letter that comes too late is of an operation of its client's own.
pub fn a_late_letter_is_of_its_clients_own()
    ensures { LatesAreOwn }
{}
