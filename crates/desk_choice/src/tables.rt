use desk_tables::{Conns, Round, Server};
use ready_set::Ready;

/// What a choice looks at: the tiers of the plan in force, all their backends in order, the connections that are viable or
/// on which operations are pending, and those that are viable and have room.
#[derive(Drop)]
pub struct Tables {
    pub rounds: Vec<Round>,
    pub servers: Vec<Server>,
    pub conns: Conns,
    pub ready: Ready,
}
