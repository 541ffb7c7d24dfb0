//! The law on merging: how the lists of parts that each go on under a lock of their own make one run of all parts.
//!
//! The function has an empty body, and its contract is the law. A layer above may rely on it for each whole family of turns
//! that is linked with stamps, whatever made it.
#![tactic(auto)]

ghost use Rattle.part_spec.specs.Merge.{MergeLaw};
ghost use Rattle.merge_laws.specs.Laws.{MergedRunLaw};

/// The turns of all parts in one order, by their stamps, are a run of the world of all parts, and have each part's turns:
/// where each turn is what its part gives behind those before it, the parts are linked, stamps rise in each list, and each
/// letter that is taken has a greater stamp than where it was given. Where links end for reasons that a link has, the lists
/// are those of a run, so that what holds of all runs holds of them.
pub fn families_merge()
    ensures merge { MergeLaw }
    ensures of_run { MergedRunLaw }
{
    link_laws::links_hold();
    link_laws::states_are_of_lists();
}
