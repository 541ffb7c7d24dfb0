//! A client's laws: what a client's turns keep of the promises, and what its state says of its list, whatever comes to it.
//!
//! The functions have empty bodies, and their contracts are the laws. A layer above may rely on them for each list that a
//! client's turns make.
#![tactic(auto)]

ghost use Rattle.client_laws.specs.Turns.{ClientRows, ClientLiveFacts, ClientStalls, ClientEndsOnce, ClientGives, ClientMarks, ClientMoments, ClientStallsInTurn, ClientLate, ClientChecks};

/// Behind each list of a client's turns the client's state has a row exactly for each operation that is live at the list's
/// end, and says of them to the checks what the list says.
pub fn a_client_has_a_row_for_each_live_operation()
    ensures rows { ClientRows }
    ensures live { ClientLiveFacts }
{}

/// A client's state says of each list whether the client is stalled.
pub fn a_client_knows_whether_it_is_stalled()
    ensures stalls { ClientStalls }
{}

/// No Out of an operation stands behind its end, in each list of a client's turns.
pub fn a_client_gets_nothing_behind_an_end()
    ensures ended_once { ClientEndsOnce }
{}

/// The letters that a client's list stands for are those that its turns gave, whatever came to it.
pub fn a_client_gives_what_its_turns_gave()
    ensures gives { ClientGives }
{}

/// Each entry of a client's list is the mark of the letter that its turn took, and of no other, whatever came to it.
pub fn a_client_marks_its_letters()
    ensures marks { ClientMarks }
{}

/// The moments of a client's list never fall, it stalls and flows in turn while it is there, and each late letter is of an
/// operation that isn't live.
pub fn a_client_keeps_its_time()
    ensures moments { ClientMoments }
    ensures stalls { ClientStallsInTurn }
    ensures late { ClientLate }
{}

/// Each In of a client's list has directly behind it what its first check wants, whatever came to it.
pub fn a_client_follows_its_checks()
    ensures checks { ClientChecks }
{}
