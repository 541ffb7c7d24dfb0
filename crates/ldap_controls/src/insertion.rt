ghost use Rattle.std.specs.Prelude.{◌≡◌, ◌+◌, ◌<◌, ◌≤◌, ◌++◌, length, IfOk, OnOk};
ghost use Rattle.ldap_spec.specs.Controls.{written_control, written_critical, written_value, list_with_first, with_first as rest_with_first};
ghost use Rattle.ldap_controls.specs.Lists.{control_view, octets_of};

use crate::lists::Control;
use ber_envelope::write_element;
use ldap_messages::{first_part, tagged_part};
use lload_names::{Body, NoMemory};
use std::alloc::Global;

/// The room, in octets, that a control is written into at first; a list that is no longer takes no further memory.
const USUAL_ROOM: usize = 128;

/// The rest with a control put first in its list, written with the shortest lengths; where there was no list, one stands
/// directly behind the operation (RFC 4511, section 4.1.11). The operation, the other controls and what stands behind
/// the list stay as they were; a rest without a whole operation is given as it is.
pub fn with_first(alloc: Global, rest: &[u8], control: &Control<'_>) -> Result<Body, NoMemory>
    requires { length rest.now + octets_of (control_view control.now) ≤ 1048576000 }
    ensures { IfOk result (λ body. body ≡ rest_with_first (control_view control.now) rest.now) }
{
    let Some(operation) = first_part(rest) else {
        return Body::from_slice(alloc, rest);
    };
    let mut out = rest[..rest.len() - operation.behind.len()].to_vec(alloc)?;
    push_list(alloc, control, operation.behind, &mut out)?;
    Ok(Body::from_vec(out))
}

/// Appends the control list with a control put first, and what stands behind it.
fn push_list(
    alloc: Global,
    control: &Control<'_>,
    behind: &[u8],
    out: &mut Vec<u8>,
) -> Result<(), NoMemory>
    requires { length behind.now + octets_of (control_view control.now) ≤ 1048576000 }
    ensures { OnOk result (out.new.items ≡ out.old.items ++ list_with_first (control_view control.now) behind.now) }
{
    match tagged_part(behind, 0xA0) {
        Some(list) => {
            let controls = controls_with_first(alloc, control, list.contents)?;
            write_element(0xA0, controls.as_slice(), out)?;
            out.extend_from_slice(list.behind)?;
        }
        None => {
            let controls = written_control(alloc, control)?;
            write_element(0xA0, controls.as_slice(), out)?;
            out.extend_from_slice(behind)?;
        }
    }
    Ok(())
}

/// A control, and behind it the others as they were.
fn controls_with_first(
    alloc: Global,
    control: &Control<'_>,
    others: &[u8],
) -> Result<Vec<u8>, NoMemory>
    requires { octets_of (control_view control.now) ≤ 1048576000 }
    ensures { IfOk result (λ bytes. bytes.items ≡ written_control (control_view control.now) ++ others.now) }
{
    let mut controls = written_control(alloc, control)?;
    controls.extend_from_slice(others)?;
    Ok(controls)
}

/// A control with the shortest lengths. Whether it is critical is written only where it is, and a value only where there
/// is one.
fn written_control(alloc: Global, control: &Control<'_>) -> Result<Vec<u8>, NoMemory>
    requires { octets_of (control_view control.now) ≤ 1048576000 }
    ensures { IfOk result (λ bytes. bytes.items ≡ written_control (control_view control.now)) }
{
    let mut fields = Vec::with_capacity(alloc, USUAL_ROOM)?;
    write_element(0x04, control.oid, &mut fields)?;
    if control.critical {
        fields.extend_from_slice(&[0x01, 0x01, 0xFF])?;
    }
    if let Some(value) = control.value {
        write_element(0x04, value, &mut fields)?;
    }
    let mut bytes = Vec::with_capacity(alloc, USUAL_ROOM)?;
    write_element(0x30, fields.as_slice(), &mut bytes)?;
    Ok(bytes)
}
