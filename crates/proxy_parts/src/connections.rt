ghost use Rattle.std.specs.Prelude.{◌≤◌};

use crate::connection::Connection;
use conn_core::UpSettings;
use std::alloc::Global;
use std::collections::{BTreeMap, BTreeSet};

/// The parts of all upstream connections that were linked, by number; those whose link wasn't ended from outside; and the
/// settings of which each is made.
#[derive(Drop)]
pub struct Connections {
    pub(crate) parts: BTreeMap<u32, Connection>,
    pub(crate) standing: BTreeSet<u32>,
    pub(crate) settings: UpSettings,
    pub(crate) alloc: Global,
    ghost least: { 2 ≤ settings.id_limit },
    ghost most: { settings.id_limit ≤ 1073741823 },
}
