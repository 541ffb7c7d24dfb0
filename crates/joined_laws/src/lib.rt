//! From the shares of the parts and the links between them to what the promises say of several lists.
//!
//! The function has an empty body, and its contract is the law. It speaks of families of lists, whatever made them: what
//! a part took of another is a beginning of what this one gave, so that each fact which a share reads off a letter is one
//! of the sender's list.
#![tactic(auto)]

ghost use Rattle.joined_laws.specs.Joined.{JoinedLaw};

/// Where each part's list keeps its share, its letters were fit, and the lists are linked, the family keeps these promises
/// of several lists.
pub fn shares_and_links_give_what_is_said_of_several_lists()
    ensures { JoinedLaw }
{
    promise_laws::shares_give_what_is_said_of_one_list();
}
