ghost use Rattle.std.specs.Prelude.{◌≡◌, ◌==◌};
ghost use Rattle.std.specs.List.{list_any};

use lload_names::Body;
use std::collections::VecDeque;

/// A message that waits for the next settle.
#[derive(Debug, Drop)]
pub(crate) struct Fed {
    pub(crate) id: u32,
    pub(crate) rest: Body,
}

/// Whether one of these messages has this identifier.
pub(crate) fn has_id(messages: &VecDeque<Fed>, id: u32) -> bool
    ensures { result ≡ list_any (λ fed. fed.id == id) messages.now.items }
{
    messages.iter().any(|fed| fed.id == id)
}
