ghost use Rattle.std.specs.Prelude.{◌≡◌, IfOk};

use lload_names::{Body, DeskPlan, Listed, NoMemory};
use restrictions::Restrictions;
use std::alloc::Global;

/// How the proxy binds itself to its backends (`bindconf` in lloadd.conf(5)).
#[derive(Debug, Drop)]
pub struct OwnBind {
    /// The name to bind as (`binddn`).
    pub dn: Body,
    /// The password (`credentials`).
    pub credentials: Body,
}

/// An IPv4 address and a port.
#[derive(Clone, Copy, Debug, PartialEq, Eq, Drop)]
pub struct Address4 {
    pub ip: [u8; 4],
    pub port: u16,
}

/// Where a backend is, and how many milliseconds pass before a connection to it is tried again (`uri` and `retry` in
/// lloadd.conf(5)).
#[derive(Clone, Copy, Debug, PartialEq, Eq, Drop)]
pub struct Host {
    pub address: Address4,
    pub retry: u32,
}

/// The hosts of the backends, by the backends' numbers.
pub type Hosts = Listed<Host>;

/// A configuration of the proxy.
#[derive(Debug, Drop)]
pub struct Config {
    /// Whether requests carry the identity of their client (`feature proxyauthz`).
    pub proxyauthz: bool,
    /// How the proxy binds itself; `None` where it doesn't.
    pub own_bind: Option<OwnBind>,
    /// After how many seconds an operation is due (`timeout`); 0 sets no limit.
    pub timeout: u32,
    /// The tiers and their backends.
    pub plan: DeskPlan,
    /// One host for each backend.
    pub hosts: Hosts,
    /// How many operations a client may have pending (`client_max_pending`); 0 sets no limit.
    pub client_max_pending: u32,
    /// From how many bytes on that wait for a client its backends' connections aren't read (`client_max_unsent`); 0 sets
    /// no limit.
    pub client_max_unsent: u32,
    /// How many bytes a message of a client may hold (`sockbuf_max_incoming_client`).
    pub client_limit: u32,
    /// How many bytes a message of a backend may hold (`sockbuf_max_incoming_upstream`).
    pub upstream_limit: u32,
    /// After how many milliseconds a write that doesn't move fails (`iotimeout`); 0 sets no limit.
    pub iotimeout: u32,
    /// How many seconds a write binds what follows it (`write_coherence`); a negative number is for ever.
    pub write_coherence: i32,
    /// What requests are kept from, and what they bind (`restrict_exop` and `restrict_control`).
    pub restrictions: Restrictions,
    /// How many threads serve the connections (`io-threads`).
    pub io_threads: u32,
}

impl Config {
    /// The same configuration again. For want of memory nothing is made.
    pub fn copy(&self, alloc: Global) -> Result<Config, NoMemory>
        ensures { IfOk result (λ config. config ≡ self.now) }
    {
        let own_bind = copy_own_bind(&self.own_bind)?;
        let plan = self.plan.copy()?;
        let hosts = copy_hosts(alloc, &self.hosts)?;
        let restrictions = self.restrictions.copy()?;
        Ok(Config {
            proxyauthz: self.proxyauthz,
            own_bind,
            timeout: self.timeout,
            plan,
            hosts,
            client_max_pending: self.client_max_pending,
            client_max_unsent: self.client_max_unsent,
            client_limit: self.client_limit,
            upstream_limit: self.upstream_limit,
            iotimeout: self.iotimeout,
            write_coherence: self.write_coherence,
            restrictions,
            io_threads: self.io_threads,
        })
    }
}

fn copy_own_bind(bind: &Option<OwnBind>) -> Result<Option<OwnBind>, NoMemory>
    ensures { IfOk result (λ copy. copy ≡ bind.now) }
{
    match bind {
        None => Ok(None),
        Some(bind) => {
            let dn = bind.dn.copy()?;
            let credentials = bind.credentials.copy()?;
            Ok(Some(OwnBind { dn, credentials }))
        }
    }
}

fn copy_hosts(alloc: Global, hosts: &Hosts) -> Result<Hosts, NoMemory>
    ensures { IfOk result (λ copy. copy ≡ hosts.now) }
{
    let mut copy = Listed::new(alloc);
    for host in hosts.as_slice() {
        copy.push(*host)?;
    }
    Ok(copy)
}
