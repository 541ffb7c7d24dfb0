use desk_choice::Tables;
use desk_tables::Pending;
use lload_names::DeskPlan;
use std::alloc::Global;

/// The desk's part: the moment of its last entry; the plan in force, whose backends are numbered through all plans, its
/// number from 1 and its base; how many backends the plans up to it have; and what a choice looks at.
#[derive(Drop)]
pub struct Desk {
    pub(crate) moment: u64,
    pub(crate) number: u32,
    pub(crate) plan: DeskPlan,
    pub(crate) base: u32,
    pub(crate) backends: u32,
    pub(crate) tables: Tables,
    pub(crate) pending: Pending,
    pub(crate) alloc: Global,
}
