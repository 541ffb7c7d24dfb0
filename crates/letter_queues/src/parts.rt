ghost use Rattle.std.specs.Prelude.{◌≡◌};
ghost use Rattle.lload_names.specs.Same.{same_part};
ghost use Rattle.letter_queues.specs.Queues.{lower_of};

use lload_names::PartName;

/// Whether two parts are one.
pub(crate) fn is_same(part: PartName, other: PartName) -> bool
    ensures { result ≡ same_part part other }
{
    part == other
}

/// The lower of two parts, where there are some.
pub(crate) fn lower_part(part: Option<PartName>, other: Option<PartName>) -> Option<PartName>
    ensures { result ≡ lower_of part other }
{
    match (part, other) {
        (Some(p), Some(q)) => { if q < p { Some(q) } else { Some(p) } }
        (Some(p), None) => Some(p),
        (None, q) => q,
    }
}
