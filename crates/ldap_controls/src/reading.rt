ghost use Rattle.std.specs.Prelude.{◌≡◌, Some, None, MatchOption};
ghost use Rattle.ldap_spec.specs.Controls.{controls, has_control};

use crate::lists::Controls;
use ldap_messages::{first_part, tagged_part};

/// The controls of a rest: those of its second element where that has the tag A0, else none; `None` exactly where they
/// can't be read. The list lends parts of the rest. It takes no memory.
pub fn of_rest(rest: &[u8]) -> Option<Controls<'_>>
    ensures { MatchOption result (controls rest.now ≡ None) (λ list. controls rest.now ≡ Some list) }
{
    let operation = first_part(rest)?;
    match tagged_part(operation.behind, 0xA0) {
        Some(list) => Controls::of_contents(list.contents),
        None => Controls::of_contents(&[]),
    }
}

/// Whether a control with this OID is in the rest's list; `false` where the controls can't be read. It takes no memory.
pub fn has(rest: &[u8], oid: &[u8]) -> bool
    ensures { result ≡ has_control oid.now rest.now }
{
    let Some(mut left) = of_rest(rest) else {
        return false;
    };
    while let Some((control, behind)) = left.split_first() {
        if control.oid == oid {
            return true;
        }
        left = behind;
    }
    false
}
