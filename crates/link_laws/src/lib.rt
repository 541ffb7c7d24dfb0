//! Laws of the worlds that any moves of the parts make.
//!
//! The functions have empty bodies, and their contracts are the laws. A layer above may rely on them for each world that
//! moves make from the beginning.
#![tactic(auto)]

ghost use Rattle.link_laws.specs.Laws.{ClientLinksLaw, ClientMarksLaw, ClientSharesLaw, ClientsGiveLaw, ConnectionLinksLaw, ConnectionSharesLaw, ConnectionsGiveLaw, DeskGivesLaw, DeskLinksLaw, DeskSharesLaw, DeskTurnsGive, EntriesLaw, LaterLaw, LinksLaw, LinksStay, StatesLaw, TurnsLaw, WorldsLinkedLaw};

/// Where each letter that was taken has a mark, what each part gave another is what this one took, and then what waits;
/// and each mark has a greater stamp than its letter.
pub fn links_hold()
    ensures links { LinksLaw }
    ensures stay { LinksStay }
    ensures later { LaterLaw }
{}

/// Each part's state is that of its list; its turns make this list and gave its letters, their stamps rise, and each is
/// what an intake gives; and the entries of the list are those of the part in the journal.
pub fn states_are_of_lists()
    ensures states { StatesLaw }
    ensures turns { TurnsLaw }
    ensures entries { EntriesLaw }
{}

/// What the desk gave is what its list gives: so, where each letter that was taken has a mark, what each part took from it is
/// a beginning of that. Its list keeps its share, up to the first letter that isn't fit.
pub fn the_desk_is_linked()
    ensures turns { DeskTurnsGive }
    ensures gives { DeskGivesLaw }
    ensures beginning { DeskLinksLaw }
    ensures shares { DeskSharesLaw }
{}

/// Where links end for reasons that a link has, what each client gave is what its list gives: so, where each letter that was
/// taken has a mark, what each part took from it is a beginning of that. Each entry of its list has the right mark, and its list
/// keeps its share, up to the first letter that isn't fit.
pub fn clients_are_linked()
    ensures gives { ClientsGiveLaw }
    ensures beginning { ClientLinksLaw }
    ensures marks { ClientMarksLaw }
    ensures shares { ClientSharesLaw }
{}

/// Where links end for reasons that a link has, each connection's list keeps its share, up to the first letter that isn't
/// fit. Where each letter that it took was fit, what it gave is what its list gives: so, where each letter that was taken
/// has a mark, what each part took from it is a beginning of that.
pub fn connections_are_linked()
    ensures shares { ConnectionSharesLaw }
    ensures gives { ConnectionsGiveLaw }
    ensures beginning { ConnectionLinksLaw }
{}

/// Where links end for reasons that a link has, and each letter that was taken was fit and has a mark, the lists of the parts
/// are linked: each has the right marks, has the part's entries of the journal, and took of each other what this gave it, in
/// order.
pub fn worlds_are_linked()
    ensures linked { WorldsLinkedLaw }
{
    part_spec::a_fit_list_begins_with_all_of_it();
}
