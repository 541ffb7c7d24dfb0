//! From the shares of the parts to the promises of the whole.
//!
//! The functions have empty bodies, and their contracts are the laws. They speak of families of lists, whatever made them:
//! a layer above may rely on them for each family whose parts' lists keep their shares.
#![tactic(auto)]

ghost use Rattle.promise_laws.specs.OneList.{OneListLaw};
ghost use Rattle.promise_laws.specs.Headline.{HeadlineLaw};

/// Where each part's list keeps its share, the family keeps what the promises say of one list alone.
pub fn shares_give_what_is_said_of_one_list()
    ensures { OneListLaw }
{}

/// The six promises in words, for the reader who trusts no test. Of each operation of each client: it went up at most once;
/// where it did, what the client got is a beginning of what was answered there, in order, each once and octet for octet, or
/// such a beginning and one named answer of the proxy's own; what went up carries the identity of its own client; nothing
/// comes behind its end; and each refusal has its cause.
pub fn the_promises_say_the_headline()
    ensures { HeadlineLaw }
{}
