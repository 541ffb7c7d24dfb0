ghost use Rattle.std.specs.Prelude.{◌≡◌};
ghost use Rattle.std.specs.Option.{option_copied};

use lload_names::Body;
use restrictions::Restrictions;

/// What a client's part is set to (lloadd.conf(5)): how many operations it may have live, where 0 is no limit
/// (`client_max_pending`); whether requests carry their client's identity (`feature proxyauthz`), and the name of the
/// proxy's own Bind, where it has one (`binddn`); for how many seconds writes bind (`write_coherence`); and the
/// restrictions (`restrict_exop`, `restrict_control`).
#[derive(Debug, Drop)]
pub struct ClientSettings {
    pub max_pending: u32,
    pub proxyauthz: bool,
    pub binddn: Option<Body>,
    pub write_coherence: i32,
    pub restrictions: Restrictions,
}

impl ClientSettings {
    /// The name of the proxy's own Bind, where it has one.
    pub(crate) fn own_name(&self) -> Option<&[u8]>
        ensures { option_copied result ≡ self.now.binddn }
    {
        match &self.binddn {
            Some(name) => Some(name.as_slice()),
            None => None,
        }
    }
}
