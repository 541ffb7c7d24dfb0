ghost use Rattle.std.specs.Prelude.{◌≡◌, ◌<◌, ◌∷◌, [], length, Some, None, MatchOption, slice_get};
ghost use Rattle.std.specs.Option.{option_copied};
ghost use Rattle.ldap_spec.specs.Controls.{control_from, listed_controls, value_at};
ghost use Rattle.ldap_controls.specs.Lists.{control_view, nothing_listed, BeginsWith};

use ldap_messages::tagged_part;
use std::marker::Model;

/// A control: its OID, whether it is critical, and its value (RFC 4511, section 4.1.11).
#[derive(Clone, Copy)]
pub struct Control<'a> {
    pub oid: &'a [u8],
    pub critical: bool,
    pub value: Option<&'a [u8]>,
}

/// The controls of a rest, which lends them. Contracts see the list of them.
#[derive(Drop)]
pub struct Controls<'a> {
    contents: &'a [u8],
}

impl<'a> Model for Controls<'a> {
    ghost use Rattle.std.specs.Prelude.{List};
    ghost use Rattle.ldap_spec.specs.Controls.{Control};

    ghost Value = { List Control };

    ghost use Rattle.std.specs.Prelude.{◌≡◌, Some};
    ghost use Rattle.ldap_spec.specs.Controls.{listed_controls};
    ghost use Rattle.ldap_controls.specs.Lists.{listed};

    ghost view = { λ c. listed c.contents.now };

    ghost invariant = { λ c. listed_controls c.contents.now ≡ Some (listed c.contents.now) };
}

impl<'a> Controls<'a> {
    /// The controls in these contents of a list; `None` exactly where they can't be read.
    pub(crate) fn of_contents(contents: &'a [u8]) -> Option<Controls<'a>>
        ensures { MatchOption result (listed_controls contents.now ≡ None) (λ list. listed_controls contents.now ≡ Some list) }
    {
        let mut left = contents;
        while !left.is_empty() {
            let (_, behind) = first_control(left)?;
            left = behind;
        }
        Some(Controls { contents })
    }

    /// How many controls there are.
    pub fn len(&self) -> usize
        ensures { result ≡ length self.now }
    {
        let mut count = 0;
        let mut left = self.contents;
        while let Some((_, behind)) = first_control(left) {
            count += 1;
            left = behind;
        }
        count
    }

    /// The control at an index, counted from 0. The controls before it are read again.
    pub fn get(&self, i: usize) -> Control<'a>
        requires { i < length self.now }
        ensures { slice_get self.now i ≡ Some (control_view result) }
    {
        let mut before = i;
        let mut left = self.contents;
        while let Some((control, behind)) = first_control(left) {
            if before == 0 {
                return control;
            }
            before -= 1;
            left = behind;
        }
        unreachable!()
    }

    /// The first control, and the list of those behind it; `None` exactly where there is none.
    pub fn split_first(&self) -> Option<(Control<'a>, Controls<'a>)>
        ensures { MatchOption result (self.now ≡ []) (λ both. self.now ≡ control_view both.0 ∷ both.1) }
    {
        let (first, contents) = first_control(self.contents)?;
        Some((first, Controls { contents }))
    }
}

/// The control that contents begin with, and what stands behind it; `None` exactly where they begin with none.
fn first_control(contents: &[u8]) -> Option<(Control<'_>, &[u8])>
    ensures { MatchOption result (listed_controls contents.now ≡ nothing_listed contents.now) (λ both. BeginsWith contents.now (control_view both.0) both.1.now) }
{
    let element = tagged_part(contents, 0x30)?;
    let oid = tagged_part(element.contents, 0x04)?;
    Some((control_from(oid.contents, oid.behind), element.behind))
}

/// The control with this OID and these octets behind it.
fn control_from<'a>(oid: &'a [u8], bytes: &'a [u8]) -> Control<'a>
    ensures { control_view result ≡ control_from oid.now bytes.now }
{
    let Some(flag) = tagged_part(bytes, 0x01) else {
        return Control {
            oid,
            critical: false,
            value: value_at(bytes),
        };
    };
    match flag.contents {
        [octet] => Control {
            oid,
            critical: *octet != 0,
            value: value_at(flag.behind),
        },
        _ => Control {
            oid,
            critical: false,
            value: None,
        },
    }
}

/// The value that the octets behind an OID, or behind a Boolean, begin with.
fn value_at(bytes: &[u8]) -> Option<&[u8]>
    ensures { option_copied result ≡ value_at bytes.now }
{
    Some(tagged_part(bytes, 0x04)?.contents)
}
