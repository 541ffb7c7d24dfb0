//! Who a client is: what its state says to the first check is what the family of all lists says of it.
//!
//! Each function has an empty body, and its contract is a law of families whose lists turns made.
#![tactic(auto)]

ghost use Rattle.identity_laws.specs.Laws.{ClientsAreKnown, ChecksAreKnown};

/// Where a message came, its client's state says to the first check what the family says: which operations are live, who the
/// client is, by the answer that settled its last Bind, and whether its exchange goes on. So the first check of each
/// operation is the same by its client's state and by the family.
pub fn a_client_is_who_the_family_says()
    ensures known { ClientsAreKnown }
    ensures checks { ChecksAreKnown }
{
    carried_laws::an_answer_tells_the_identity_that_its_connection_was_told();
}
