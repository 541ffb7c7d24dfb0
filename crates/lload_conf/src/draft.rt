ghost use Rattle.std.specs.Prelude.{◌≡◌, [], length, None, false, IfOk, IsOk, unwrap_or};
ghost use Rattle.lload_conf.specs.Configuration.{is_restricted};
ghost use Rattle.lload_conf.specs.Draft.{before_draft, bind_of, draft_fault, empty_draft, finished, stood_in, Takes, whole_plan, with_entry};
ghost use Rattle.lload_conf.specs.Faults.{passes_limit};
ghost use Rattle.lload_conf.specs.Settings.{address_of, backend_of, host_of, kept_action_of, kind_of, oid_of, own_bind_of};
ghost use Rattle.lload_conf.specs.Line.{argument_of, entry_of, value_of};
ghost use Rattle.lload_conf.specs.Values.{number_or_default, seconds_or_default};

use crate::config::{Address4, Config, Host, Hosts, OwnBind};
use crate::line::{Before, entry_fault, has_key, number_of, places_of, second_of, value_of};
use crate::table::{
    BINDCONNS, CLIENT_LIMIT, CLIENT_MAX_PENDING, CLIENT_MAX_UNSENT, CONN_MAX_PENDING, Directive,
    IO_THREADS, IOTIMEOUT, MAX_PENDING_OPS, NUMCONNS, Number, RETRY, TIMEOUT, UPSTREAM_LIMIT,
    WEIGHT, WRITE_COHERENCE, directive_named,
};
use crate::values::{
    Target, action_named, number_or_default, seconds_or_default, tier_kind, uri_target,
};
use lload_names::{BackendPlan, Body, DeskPlan, Listed, NoMemory, TierKind, TierPlan, Word};
use restrictions::{Action, Restrictions};
use std::alloc::Global;

/// What the line of `bindconf` sets.
#[derive(Debug, Drop)]
pub struct BindLine {
    own_bind: Option<OwnBind>,
    timeout: u32,
}

/// The configuration of the lines so far: each setting is there once its line is.
#[derive(Debug, Drop)]
pub struct Draft {
    proxyauthz: bool,
    bind: Option<BindLine>,
    client_max_pending: Option<u32>,
    client_max_unsent: Option<u32>,
    client_limit: Option<u32>,
    upstream_limit: Option<u32>,
    iotimeout: Option<u32>,
    write_coherence: Option<i32>,
    restrictions: Restrictions,
    io_threads: Option<u32>,
    /// The tiers that are whole.
    earlier: DeskPlan,
    /// The last tier, which the next backend joins.
    last: Option<TierPlan>,
    hosts: Hosts,
    /// How many tiers there are, the last included.
    tiers: u32,
    /// How many places the backends have.
    places: u32,
}

impl Draft {
    /// The configuration of no lines.
    pub fn new(alloc: Global) -> Draft
        ensures { result ≡ empty_draft }
    {
        Draft {
            proxyauthz: false,
            bind: None,
            client_max_pending: None,
            client_max_unsent: None,
            client_limit: None,
            upstream_limit: None,
            iotimeout: None,
            write_coherence: None,
            restrictions: Restrictions::new(alloc),
            io_threads: None,
            earlier: Listed::new(alloc),
            last: None,
            hosts: Listed::new(alloc),
            tiers: 0,
            places: 0,
        }
    }

    /// Takes a line, which is given by its words, or else answers the lowest kind of fault that it has. An unknown
    /// directive takes no memory.
    pub fn take(&mut self, alloc: Global, words: &[Word]) -> Result<Option<u8>, NoMemory>
        ensures takes { IfOk result (λ fault. Takes self.old words.now fault self.new) }
        ensures unknown { entry_of words.now ≡ None → IsOk result }
    {
        let Some((name, arguments)) = words.split_first() else {
            return Ok(Some(3));
        };
        let Some(entry) = directive_named(name.as_str()) else {
            return Ok(Some(3));
        };
        let before = self.before(entry.0, arguments);
        let fault = entry_fault(alloc, before, entry, arguments)?;
        if fault.is_none() {
            self.set(alloc, entry.0, arguments)?;
        }
        Ok(fault)
    }

    /// The configuration, where no line is left.
    pub fn finish(self) -> Result<Config, NoMemory>
        ensures { IfOk result (λ config. config ≡ finished self) }
    {
        let Draft {
            proxyauthz,
            bind,
            client_max_pending,
            client_max_unsent,
            client_limit,
            upstream_limit,
            iotimeout,
            write_coherence,
            restrictions,
            io_threads,
            earlier,
            last,
            hosts,
            tiers: _,
            places: _,
        } = self;
        let (own_bind, timeout) = match bind {
            Some(BindLine { own_bind, timeout }) => (own_bind, timeout),
            None => (None, TIMEOUT.default),
        };
        Ok(Config {
            proxyauthz,
            own_bind,
            timeout,
            plan: whole_plan(earlier, last)?,
            hosts,
            client_max_pending: client_max_pending.unwrap_or(CLIENT_MAX_PENDING.default),
            client_max_unsent: client_max_unsent.unwrap_or(CLIENT_MAX_UNSENT.default),
            client_limit: client_limit.unwrap_or(CLIENT_LIMIT.default),
            upstream_limit: upstream_limit.unwrap_or(UPSTREAM_LIMIT.default),
            iotimeout: iotimeout.unwrap_or(IOTIMEOUT.default),
            write_coherence: write_coherence.unwrap_or(WRITE_COHERENCE.default as i32),
            restrictions,
            io_threads: io_threads.unwrap_or(IO_THREADS.default),
        })
    }

    /// How many backends there are.
    pub fn backends(&self) -> usize
        ensures { result ≡ length self.now.hosts }
    {
        self.hosts.len()
    }

    /// What stood before a line of a directive, which is given by its arguments.
    fn before(&self, directive: Directive, words: &[Word]) -> Before
        ensures { result ≡ before_draft self.now directive words.now }
    {
        Before {
            stood: self.stood(directive) || self.is_restricted(directive, words),
            tiers: self.tiers,
            backends: self.hosts.len(),
            places: self.places,
        }
    }

    /// Whether a directive that may stand once stood.
    fn stood(&self, directive: Directive) -> bool
        ensures { result ≡ stood_in self.now directive }
    {
        match directive {
            Directive::BindConf => self.bind.is_some(),
            Directive::ClientMaxPending => self.client_max_pending.is_some(),
            Directive::ClientLimit => self.client_limit.is_some(),
            Directive::UpstreamLimit => self.upstream_limit.is_some(),
            Directive::IoTimeout => self.iotimeout.is_some(),
            Directive::IoThreads => self.io_threads.is_some(),
            Directive::WriteCoherence => self.write_coherence.is_some(),
            Directive::ClientMaxUnsent => self.client_max_unsent.is_some(),
            _ => false,
        }
    }

    /// Whether arguments restrict an OID that their directive restricted before.
    fn is_restricted(&self, directive: Directive, words: &[Word]) -> bool
        ensures { result ≡ is_restricted directive words.now self.now.restrictions }
    {
        match directive {
            Directive::RestrictExop => self.restrictions.has_exop(oid_of(words).as_bytes()),
            Directive::RestrictControl => self.restrictions.has_control(oid_of(words).as_bytes()),
            _ => false,
        }
    }

    /// Takes a line without a fault, which is given by its directive and its arguments.
    fn set(&mut self, alloc: Global, directive: Directive, words: &[Word]) -> Result<(), NoMemory>
        requires limit { passes_limit (before_draft self.old directive words.now) directive words.now ≡ false }
        requires new { is_restricted directive words.now self.old.restrictions ≡ false }
        ensures { IfOk result (λ _. self.new ≡ with_entry self.old directive words.now) }
    {
        match directive {
            Directive::BindConf => self.bind = Some(bind_conf(alloc, words)?),
            Directive::Tier => return self.add_tier(alloc, words),
            Directive::BackendServer => return self.add_backend(words),
            Directive::ClientMaxPending => {
                self.client_max_pending = Some(only_number(words, CLIENT_MAX_PENDING));
            }
            Directive::ClientLimit => self.client_limit = Some(only_number(words, CLIENT_LIMIT)),
            Directive::UpstreamLimit => {
                self.upstream_limit = Some(only_number(words, UPSTREAM_LIMIT));
            }
            Directive::IoTimeout => self.iotimeout = Some(only_number(words, IOTIMEOUT)),
            Directive::IoThreads => self.io_threads = Some(only_number(words, IO_THREADS)),
            Directive::Feature => self.proxyauthz = true,
            Directive::WriteCoherence => self.write_coherence = Some(only_seconds(words)),
            Directive::RestrictExop => {
                self.restrictions
                    .set_exop(oid_of(words).as_bytes(), action_of(words))?;
            }
            Directive::RestrictControl => {
                self.restrictions
                    .set_control(oid_of(words).as_bytes(), action_of(words))?;
            }
            Directive::ClientMaxUnsent => {
                self.client_max_unsent = Some(only_number(words, CLIENT_MAX_UNSENT));
            }
            Directive::Noted | Directive::LeftOut => {}
        }
        Ok(())
    }

    /// Takes a tier.
    fn add_tier(&mut self, alloc: Global, words: &[Word]) -> Result<(), NoMemory>
        requires { passes_limit (before_draft self.old Directive.Tier words.now) Directive.Tier words.now ≡ false }
        ensures { IfOk result (λ _. self.new ≡ with_entry self.old Directive.Tier words.now) }
    {
        let tier = TierPlan {
            kind: kind_of(words),
            backends: Listed::new(alloc),
        };
        if let Some(whole) = self.last.replace(tier) {
            self.earlier.push(whole)?;
        }
        self.tiers += 1;
        Ok(())
    }

    /// Takes a backend.
    fn add_backend(&mut self, words: &[Word]) -> Result<(), NoMemory>
        requires { passes_limit (before_draft self.old Directive.BackendServer words.now) Directive.BackendServer words.now ≡ false }
        ensures { IfOk result (λ _. self.new ≡ with_entry self.old Directive.BackendServer words.now) }
    {
        let number = self.hosts.len() as u32 + 1;
        if let Some(mut tier) = self.last.take() {
            tier.backends.push(backend_of(number, words))?;
            self.last = Some(tier);
        }
        self.hosts.push(host_of(words))?;
        self.places += places_of(words);
        Ok(())
    }
}

/// The tiers that are whole and the last one.
fn whole_plan(earlier: DeskPlan, last: Option<TierPlan>) -> Result<DeskPlan, NoMemory>
    ensures { IfOk result (λ plan. plan ≡ whole_plan earlier last) }
{
    let mut plan = earlier;
    if let Some(tier) = last {
        plan.push(tier)?;
    }
    Ok(plan)
}

/// The number of a directive of one, or the default.
fn only_number(words: &[Word], range: Number) -> u32
    ensures { result ≡ number_or_default range (argument_of words.now) }
{
    number_or_default(range, words.first().map(|word| word.as_str()))
}

/// The number of seconds of a directive of one, or the default.
fn only_seconds(words: &[Word]) -> i32
    ensures { result ≡ seconds_or_default (argument_of words.now) }
{
    seconds_or_default(words.first().map(|word| word.as_str()))
}

/// What the arguments of `bindconf` set.
fn bind_conf(alloc: Global, words: &[Word]) -> Result<BindLine, NoMemory>
    ensures { IfOk result (λ bind. bind ≡ bind_of words.now) }
{
    Ok(BindLine {
        own_bind: own_bind(alloc, words)?,
        timeout: number_of(words, "timeout", TIMEOUT),
    })
}

/// How the proxy binds itself by the arguments of `bindconf`.
fn own_bind(alloc: Global, words: &[Word]) -> Result<Option<OwnBind>, NoMemory>
    ensures { IfOk result (λ bind. bind ≡ own_bind_of words.now) }
{
    if !has_key(words, "bindmethod") {
        return Ok(None);
    }
    Ok(Some(OwnBind {
        dn: body_of(alloc, words, "binddn")?,
        credentials: body_of(alloc, words, "credentials")?,
    }))
}

/// The bytes of the value of a key, or none.
fn body_of(alloc: Global, words: &[Word], name: &str) -> Result<Body, NoMemory>
    ensures { IfOk result (λ body. body ≡ unwrap_or (value_of name.now words.now) []) }
{
    let value = value_of(words, name).unwrap_or("");
    Body::from_slice(alloc, value.as_bytes())
}

/// The OID of the arguments of a restriction.
fn oid_of(words: &[Word]) -> &str
    ensures { result.now ≡ oid_of words.now }
{
    match words.first() {
        Some(word) => word.as_str(),
        None => "",
    }
}

/// The action of the arguments of a restriction.
fn action_of(words: &[Word]) -> Action
    ensures { result ≡ kept_action_of words.now }
{
    second_of(words)
        .and_then(action_named)
        .unwrap_or(Action::Ignore)
}

/// The kind of tier of the arguments of `tier`.
fn kind_of(words: &[Word]) -> TierKind
    ensures { result ≡ kind_of words.now }
{
    match words.first() {
        Some(word) => tier_kind(word.as_str()).unwrap_or(TierKind::RoundRobin),
        None => TierKind::RoundRobin,
    }
}

/// The backend of the arguments of `backend-server`, under a number.
fn backend_of(number: u32, words: &[Word]) -> BackendPlan
    ensures { result ≡ backend_of number words.now }
{
    BackendPlan {
        number,
        weight: number_of(words, "weight", WEIGHT),
        numconns: number_of(words, "numconns", NUMCONNS),
        bindconns: number_of(words, "bindconns", BINDCONNS),
        max_pending: number_of(words, "max-pending-ops", MAX_PENDING_OPS),
        conn_max_pending: number_of(words, "conn-max-pending", CONN_MAX_PENDING),
    }
}

/// The host of the arguments of `backend-server`.
fn host_of(words: &[Word]) -> Host
    ensures { result ≡ host_of words.now }
{
    let address = match value_of(words, "uri") {
        Some(uri) => address_of(uri_target(uri)),
        None => NOWHERE,
    };
    Host {
        address,
        retry: number_of(words, "retry", RETRY),
    }
}

/// No address.
const NOWHERE: Address4 = Address4 {
    ip: [0, 0, 0, 0],
    port: 0,
};

/// The address that a `uri` leads to.
fn address_of(target: Target) -> Address4
    ensures { result ≡ address_of target }
{
    match target {
        Target::At(address) => address,
        Target::Unreadable | Target::Elsewhere => NOWHERE,
    }
}
