ghost use Rattle.lload_conf.specs.Answers.{IsConfig};

use anyhow::{Context, Result, bail};
use ber_envelope::write_element;
use ldap_messages::classify;
use lload_conf::{ConfFault, Config, Host, check_text, read};
use lload_names::{BackendPlan, TierKind};
use restrictions::{Action, Restrictions};
use std::alloc::Global;
use std::fmt::Write;
use std::str;

/// The most octets that a configuration may have.
const LIMIT: usize = 1_048_576;

/// The OIDs whose restrictions are told; the texts restrict no other.
const OIDS: [&str; 6] = [
    "1",
    "1.1",
    "1.2.3",
    "01.2.3",
    "1.3.6.1.4.1.4203.1.11.1",
    "1.2.840.113556.1.4.319",
];

/// What a text comes to: the line and the kind of its fault, or its counts, its tiers with their backends, and each
/// setting that isn't the default.
pub fn answer_to(alloc: Global, text: &[u8]) -> Result<String> {
    if text.len() > LIMIT {
        bail!("a text that is too long");
    }
    match read(alloc, text) {
        Ok(config) => accepted(alloc, &config),
        Err(ConfFault::Line { line, kind }) => {
            Ok(format!(in alloc; "line {line}, kind {kind}")?)
        }
        Err(ConfFault::NoMemory) => bail!("no memory for a configuration"),
    }
}

fn accepted(alloc: Global, config: &Config) -> Result<String>
    requires { IsConfig config.now }
{
    let Ok(line) = check_text(alloc, config) else {
        bail!("no memory for a line");
    };
    let counts = str::from_utf8(line.as_slice())?
        .strip_prefix("configuration accepted: ")
        .context("another line")?
        .strip_suffix("\n")
        .context("a line that doesn't end")?;
    let mut out = String::from_str(alloc, counts)?;
    write_plan(&mut out, config)?;
    write_bind(&mut out, config)?;
    write_settings(&mut out, config)?;
    for oid in &OIDS {
        write_restrictions(alloc, &mut out, &config.restrictions, *oid)?;
    }
    Ok(out)
}

fn write_plan(out: &mut String, config: &Config) -> Result<()> {
    let mut place = 0usize;
    for tier in config.plan.as_slice() {
        let kind = match tier.kind {
            TierKind::RoundRobin => "roundrobin",
            TierKind::Weighted => "weighted",
            TierKind::BestOf => "bestof",
        };
        write!(out, "; {kind}")?;
        for backend in tier.backends.as_slice() {
            let host = config.hosts.get(place).context("a backend without a host")?;
            place = place.saturating_add(1);
            if backend.number as usize != place {
                bail!("a backend with another number");
            }
            write_backend(out, backend, host)?;
        }
    }
    Ok(())
}

fn write_backend(out: &mut String, backend: &BackendPlan, host: &Host) -> Result<()> {
    let [a, b, c, d] = host.address.ip;
    write!(out, " [{a}.{b}.{c}.{d}:{}", host.address.port)?;
    let settings = [
        (" numconns", backend.numconns, 10),
        (" bindconns", backend.bindconns, 10),
        (" retry", host.retry, 5000),
        (" max-pending-ops", backend.max_pending, 0),
        (" conn-max-pending", backend.conn_max_pending, 0),
        (" weight", backend.weight, 1),
    ];
    write_others(out, &settings)?;
    write!(out, "]")?;
    Ok(())
}

fn write_bind(out: &mut String, config: &Config) -> Result<()> {
    if let Some(own) = &config.own_bind {
        let dn = str::from_utf8(own.dn.as_slice())?;
        let credentials = str::from_utf8(own.credentials.as_slice())?;
        write!(out, "; binddn ({dn}) credentials ({credentials})")?;
    }
    Ok(())
}

fn write_settings(out: &mut String, config: &Config) -> Result<()> {
    if config.proxyauthz {
        write!(out, "; feature proxyauthz")?;
    }
    if config.write_coherence != 0 {
        write!(out, "; write_coherence {}", config.write_coherence)?;
    }
    let settings = [
        ("; timeout", config.timeout, 0),
        ("; client_max_pending", config.client_max_pending, 0),
        ("; client_max_unsent", config.client_max_unsent, 0),
        ("; sockbuf_max_incoming_client", config.client_limit, 262143),
        (
            "; sockbuf_max_incoming_upstream",
            config.upstream_limit,
            4194303,
        ),
        ("; iotimeout", config.iotimeout, 10000),
        ("; io-threads", config.io_threads, 1),
    ];
    write_others(out, &settings)
}

/// The restrictions of an OID: the action of an Extended request of this name, and of a Compare with this control, which
/// has none of its own.
fn write_restrictions(
    alloc: Global,
    out: &mut String,
    table: &Restrictions,
    oid: &str,
) -> Result<()> {
    if table.has_exop(oid.as_bytes()) {
        let name = element(alloc, 0x80, oid.as_bytes())?;
        let rest = element(alloc, 0x77, name.as_slice())?;
        write!(
            out,
            "; restrict_exop {oid} {}",
            action(table, rest.as_slice())?
        )?;
    }
    if table.has_control(oid.as_bytes()) {
        let name = element(alloc, 0x04, oid.as_bytes())?;
        let control = element(alloc, 0x30, name.as_slice())?;
        let list = element(alloc, 0xA0, control.as_slice())?;
        let mut rest = element(alloc, 0x6E, b"")?;
        rest.extend_from_slice(list.as_slice())?;
        write!(
            out,
            "; restrict_control {oid} {}",
            action(table, rest.as_slice())?
        )?;
    }
    Ok(())
}

/// A short element.
fn element(alloc: Global, tag: u8, contents: &[u8]) -> Result<Vec<u8>> {
    if contents.len() > 127 {
        bail!("an element that is too long");
    }
    let mut out = Vec::new(alloc);
    if write_element(tag, contents, &mut out).is_err() {
        bail!("no memory for an element");
    }
    Ok(out)
}

/// The action of a request.
fn action(table: &Restrictions, rest: &[u8]) -> Result<&'static str> {
    let request = classify(rest).context("a request that can't be read")?;
    Ok(match table.effective(&request, rest) {
        Action::Ignore => "ignore",
        Action::Write => "write",
        Action::Backend => "backend",
        Action::Connection => "connection",
        Action::Reject => "reject",
    })
}

/// The settings that aren't their defaults: the name, the value and the default of each.
fn write_others(out: &mut String, settings: &[(&str, u32, u32)]) -> Result<()> {
    for (name, value, default) in settings {
        if value != default {
            write!(out, "{name} {value}")?;
        }
    }
    Ok(())
}
