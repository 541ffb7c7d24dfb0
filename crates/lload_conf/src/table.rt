ghost use Rattle.std.specs.Prelude.{◌≡◌};
ghost use Rattle.std.specs.Str.{str_eq_ignore_ascii_case};
ghost use Rattle.lload_conf.specs.Table.{begins_with_tls, directive_named, key_named, keys_of, named, rows_of};

use Arguments::{Each, One, Pairs, Restriction, Unread};
use lload_names::TierKind;
use restrictions::Action;

/// A directive of the file.
#[derive(Clone, Copy, Debug, PartialEq, Eq, Drop)]
pub enum Directive {
    BindConf,
    Tier,
    BackendServer,
    ClientMaxPending,
    ClientLimit,
    UpstreamLimit,
    IoTimeout,
    IoThreads,
    Feature,
    WriteCoherence,
    RestrictExop,
    RestrictControl,
    ClientMaxUnsent,
    /// It has no effect.
    Noted,
    /// The proxy doesn't have it.
    LeftOut,
}

/// What the arguments of a directive are.
#[derive(Clone, Copy, Debug, PartialEq, Eq, Drop)]
pub enum Arguments {
    /// One argument.
    One(Takes),
    /// One argument or more.
    Each(Takes),
    /// One argument or more, each a key, `=` and a value.
    Pairs(Keys),
    /// Two arguments: an OID and an action.
    Restriction,
    /// They aren't looked at.
    Unread,
}

/// The keys of a directive.
#[derive(Clone, Copy, Debug, PartialEq, Eq, Drop)]
pub enum Keys {
    Bind,
    Backend,
}

/// What the text of an argument or of a key's value may be.
#[derive(Clone, Copy, Debug, PartialEq, Eq, Drop)]
pub enum Takes {
    /// Any text.
    Text,
    /// Any text, and it has no effect.
    Noted,
    /// A number in a range.
    Number(Number),
    /// A number of seconds, which may be negative.
    Seconds,
    /// The address of a backend.
    Uri,
    /// How the proxy binds itself; it has `simple` alone.
    Method,
    /// How a tier picks a backend.
    Kind,
    /// The name of a feature; it has `proxyauthz` alone.
    Feature,
    /// The proxy doesn't have what it sets.
    LeftOut,
}

/// The numbers from `low` to `high`, and the one that stands where none is given.
#[derive(Clone, Copy, Debug, PartialEq, Eq, Drop)]
pub struct Number {
    pub low: u32,
    pub high: u32,
    pub default: u32,
}

pub const CLIENT_MAX_PENDING: Number = Number {
    low: 0,
    high: u32::MAX,
    default: 0,
};

pub const CLIENT_MAX_UNSENT: Number = Number {
    low: 0,
    high: u32::MAX,
    default: 0,
};

pub const WRITE_COHERENCE: Number = Number {
    low: 0,
    high: 2_147_483_647,
    default: 0,
};

/// What stands behind the sign of a negative one.
pub const NEGATIVE_COHERENCE: Number = Number {
    low: 0,
    high: 2_147_483_648,
    default: 0,
};

pub const CLIENT_LIMIT: Number = Number {
    low: 1,
    high: 268_435_455,
    default: 262_143,
};

pub const UPSTREAM_LIMIT: Number = Number {
    low: 1,
    high: 268_435_455,
    default: 4_194_303,
};

pub const IOTIMEOUT: Number = Number {
    low: 0,
    high: u32::MAX,
    default: 10_000,
};

pub const IO_THREADS: Number = Number {
    low: 1,
    high: 16,
    default: 1,
};

pub const TIMEOUT: Number = Number {
    low: 0,
    high: u32::MAX,
    default: 0,
};

pub const NUMCONNS: Number = Number {
    low: 1,
    high: 512,
    default: 10,
};

pub const BINDCONNS: Number = Number {
    low: 0,
    high: 512,
    default: 10,
};

pub const RETRY: Number = Number {
    low: 0,
    high: u32::MAX,
    default: 5_000,
};

pub const MAX_PENDING_OPS: Number = Number {
    low: 0,
    high: u32::MAX,
    default: 0,
};

pub const CONN_MAX_PENDING: Number = Number {
    low: 0,
    high: u32::MAX,
    default: 0,
};

pub const WEIGHT: Number = Number {
    low: 0,
    high: u32::MAX,
    default: 1,
};

pub const PORT: Number = Number {
    low: 1,
    high: 65_535,
    default: 389,
};

pub const OCTET: Number = Number {
    low: 0,
    high: 255,
    default: 0,
};

/// A table: names, which are compared without regard to ASCII case, and what stands under each.
type Table<T, const N: usize> = [(&'static str, T); N];

/// The directives of lloadd.conf(5). Those that begin with `TLS` are left out too.
pub const DIRECTIVES: Table<(Directive, Arguments), 25> = [
    ("bindconf", (Directive::BindConf, Pairs(Keys::Bind))),
    ("tier", (Directive::Tier, One(Takes::Kind))),
    (
        "backend-server",
        (Directive::BackendServer, Pairs(Keys::Backend)),
    ),
    (
        "client_max_pending",
        (
            Directive::ClientMaxPending,
            One(Takes::Number(CLIENT_MAX_PENDING)),
        ),
    ),
    (
        "client_max_unsent",
        (
            Directive::ClientMaxUnsent,
            One(Takes::Number(CLIENT_MAX_UNSENT)),
        ),
    ),
    (
        "sockbuf_max_incoming_client",
        (Directive::ClientLimit, One(Takes::Number(CLIENT_LIMIT))),
    ),
    (
        "sockbuf_max_incoming_upstream",
        (Directive::UpstreamLimit, One(Takes::Number(UPSTREAM_LIMIT))),
    ),
    (
        "iotimeout",
        (Directive::IoTimeout, One(Takes::Number(IOTIMEOUT))),
    ),
    (
        "io-threads",
        (Directive::IoThreads, One(Takes::Number(IO_THREADS))),
    ),
    ("feature", (Directive::Feature, Each(Takes::Feature))),
    (
        "write_coherence",
        (Directive::WriteCoherence, One(Takes::Seconds)),
    ),
    ("restrict_exop", (Directive::RestrictExop, Restriction)),
    (
        "restrict_control",
        (Directive::RestrictControl, Restriction),
    ),
    ("loglevel", (Directive::Noted, Each(Takes::Noted))),
    ("pidfile", (Directive::Noted, Each(Takes::Noted))),
    ("argsfile", (Directive::Noted, Each(Takes::Noted))),
    ("threads", (Directive::Noted, Each(Takes::Noted))),
    ("concurrency", (Directive::Noted, Each(Takes::Noted))),
    ("max_pdus_per_cycle", (Directive::Noted, Each(Takes::Noted))),
    ("include", (Directive::LeftOut, Unread)),
    ("listen", (Directive::LeftOut, Unread)),
    ("moduleload", (Directive::LeftOut, Unread)),
    ("modulepath", (Directive::LeftOut, Unread)),
    ("database", (Directive::LeftOut, Unread)),
    ("backend", (Directive::LeftOut, Unread)),
];

/// The keys of `bindconf`. Those that begin with `tls` are left out too.
pub const BIND_KEYS: Table<Takes, 13> = [
    ("bindmethod", Takes::Method),
    ("binddn", Takes::Text),
    ("credentials", Takes::Text),
    ("timeout", Takes::Number(TIMEOUT)),
    ("keepalive", Takes::Noted),
    ("network-timeout", Takes::Noted),
    ("tcp-user-timeout", Takes::Noted),
    ("starttls", Takes::LeftOut),
    ("saslmech", Takes::LeftOut),
    ("authcid", Takes::LeftOut),
    ("authzid", Takes::LeftOut),
    ("realm", Takes::LeftOut),
    ("secprops", Takes::LeftOut),
];

/// The keys of `backend-server`. Those that begin with `tls` are left out too.
pub const BACKEND_KEYS: Table<Takes, 13> = [
    ("uri", Takes::Uri),
    ("numconns", Takes::Number(NUMCONNS)),
    ("bindconns", Takes::Number(BINDCONNS)),
    ("retry", Takes::Number(RETRY)),
    ("max-pending-ops", Takes::Number(MAX_PENDING_OPS)),
    ("conn-max-pending", Takes::Number(CONN_MAX_PENDING)),
    ("weight", Takes::Number(WEIGHT)),
    ("starttls", Takes::LeftOut),
    ("saslmech", Takes::LeftOut),
    ("authcid", Takes::LeftOut),
    ("authzid", Takes::LeftOut),
    ("realm", Takes::LeftOut),
    ("secprops", Takes::LeftOut),
];

/// The kinds of tiers.
pub const TIER_KINDS: Table<TierKind, 3> = [
    ("roundrobin", TierKind::RoundRobin),
    ("weighted", TierKind::Weighted),
    ("bestof", TierKind::BestOf),
];

/// The actions of restrictions.
pub const ACTIONS: Table<Action, 5> = [
    ("ignore", Action::Ignore),
    ("write", Action::Write),
    ("backend", Action::Backend),
    ("connection", Action::Connection),
    ("reject", Action::Reject),
];

/// The directive of a name, and what its arguments are; `None` exactly where lloadd.conf(5) has no such directive.
pub fn directive_named(name: &str) -> Option<(Directive, Arguments)>
    ensures { result ≡ directive_named name.now }
{
    match named(&DIRECTIVES, name) {
        Some(found) => Some(found),
        None if begins_with_tls(name) => Some((Directive::LeftOut, Unread)),
        None => None,
    }
}

/// What the value of a key may be; `None` exactly where the directive has no such key.
pub fn key_named(keys: Keys, name: &str) -> Option<Takes>
    ensures { result ≡ key_named keys name.now }
{
    match key_among(keys, name) {
        Some(found) => Some(found),
        None if begins_with_tls(name) => Some(Takes::LeftOut),
        None => None,
    }
}

/// The same, but for the keys that begin with `tls`.
fn key_among(keys: Keys, name: &str) -> Option<Takes>
    ensures { result ≡ named (keys_of keys) name.now }
{
    match keys {
        Keys::Bind => named(&BIND_KEYS, name),
        Keys::Backend => named(&BACKEND_KEYS, name),
    }
}

/// What stands in a table under a name.
pub fn named<T: Copy>(table: &[(&'static str, T)], name: &str) -> Option<T>
    ensures { result ≡ named (rows_of table.now) name.now }
{
    for row in table {
        if same_name(row.0, name) {
            return Some(row.1);
        }
    }
    None
}

/// Whether two names differ at most in the case of their ASCII letters.
pub fn same_name(name: &str, other: &str) -> bool
    ensures { result ≡ str_eq_ignore_ascii_case name.now other.now }
{
    name.eq_ignore_ascii_case(other)
}

/// Whether a name begins with `tls`.
fn begins_with_tls(name: &str) -> bool
    ensures { result ≡ begins_with_tls name.now }
{
    match name.as_bytes() {
        [t, l, s, ..] => [*t, *l, *s].eq_ignore_ascii_case(b"tls"),
        _ => false,
    }
}
