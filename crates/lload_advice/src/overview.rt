ghost use Rattle.std.specs.Prelude.{◌≡◌, ◌+◌, ◌++◌, IfOk};
ghost use Rattle.lload_names.specs.Plans.{backends_of};
ghost use Rattle.lload_advice.specs.Overview.{backends_in, places_behind, places_in};

use lload_conf::{Config, Host};
use lload_names::{BackendPlan, Listed, NoMemory, TierKind, TierPlan};
use std::alloc::Global;
use std::fmt::Write;

/// A backend of a configuration, or a tier without any.
#[derive(Debug, Drop)]
pub struct Row {
    /// The number of its tier, counted from 1.
    pub tier: u32,
    /// How that tier picks a backend.
    pub kind: TierKind,
    /// The backend; `None` in the one row of a tier without any.
    pub backend: Option<BackendPlan>,
    /// Where the backend is.
    pub host: Option<Host>,
    /// How many places there are in the rows before.
    pub places_before: u64,
}

/// The rows of a configuration, in its order.
pub type Rows = Listed<Row>;

/// What a configuration comes to: a row for each backend, and one for each tier without any.
pub fn rows(alloc: Global, config: &Config) -> Result<Rows, NoMemory>
    ensures { IfOk result (λ rows. backends_in rows ≡ backends_of config.now.plan) }
{
    let mut rows = Rows::new(alloc);
    let mut number = 0u32;
    for tier in config.plan.as_slice() {
        number = number.saturating_add(1);
        with_tier(config, number, tier, &mut rows)?;
    }
    Ok(rows)
}

/// Puts the rows of a tier behind others.
fn with_tier(config: &Config, number: u32, tier: &TierPlan, rows: &mut Rows) -> Result<(), NoMemory>
    ensures { IfOk result (λ _. backends_in rows.new ≡ backends_in rows.old ++ tier.now.backends) }
{
    let backends = tier.backends.as_slice();
    if backends.is_empty() {
        rows.push(Row {
            tier: number,
            kind: tier.kind,
            backend: None,
            host: None,
            places_before: places_behind(rows.as_slice()),
        })?;
    }
    for backend in backends {
        rows.push(Row {
            tier: number,
            kind: tier.kind,
            backend: Some(*backend),
            host: host_of(config, backend.number),
            places_before: places_behind(rows.as_slice()),
        })?;
    }
    Ok(())
}

/// The host of the backend with a number, counted from 1.
fn host_of(config: &Config, number: u32) -> Option<Host> {
    let index = number.checked_sub(1)?;
    config.hosts.get(index as usize).copied()
}

/// How many places there are in some rows.
fn places_behind(rows: &[Row]) -> u64
    ensures { result ≡ places_behind rows.now }
{
    match rows.last() {
        Some(row) => row.places_before.saturating_add(row.places()),
        None => 0,
    }
}

impl Row {
    /// How many places it has: its backend's regular connections and its bind connections.
    pub fn places(&self) -> u64
        ensures { result ≡ places_in self.now }
    {
        match self.backend {
            Some(backend) => places_of(backend),
            None => 0,
        }
    }

    /// The line above the rows.
    pub(crate) const HEAD: &'static str =
        "tier  type        backend  address                places    regular  bind  weight\n";

    /// Writes its line behind a text: the tier, its type, and of a backend its number, its address, its places, how many of
    /// these are regular and how many for Binds, and its weight.
    pub(crate) fn write_line(&self, alloc: Global, out: &mut String) -> Result<(), NoMemory> {
        write!(out, "{:<4}  {:<10}", self.tier, kind_name(self.kind))?;
        match self.backend {
            Some(backend) => self.write_backend(alloc, backend, out)?,
            None => writeln!(out, "  none, so that the tier never decides")?,
        }
        Ok(())
    }

    fn write_backend(
        &self,
        alloc: Global,
        backend: BackendPlan,
        out: &mut String,
    ) -> Result<(), NoMemory> {
        let address = address_text(alloc, self.host)?;
        let places = format!(in alloc;
            "{}-{}",
            self.places_before.saturating_add(1),
            self.places_before.saturating_add(self.places())
        )?;
        writeln!(
            out,
            "  {:<7}  {:<21}  {:<8}  {:<7}  {:<4}  {}",
            backend.number, address, places, backend.numconns, backend.bindconns, backend.weight
        )?;
        Ok(())
    }
}

/// How many places a backend has.
fn places_of(backend: BackendPlan) -> u64
    ensures { result ≡ backend.numconns + backend.bindconns }
{
    backend.numconns as u64 + backend.bindconns as u64
}

/// The address and the port of a host.
fn address_text(alloc: Global, host: Option<Host>) -> Result<String, NoMemory> {
    let Some(host) = host else {
        return Ok(String::new(alloc));
    };
    let [a, b, c, d] = host.address.ip;
    Ok(format!(in alloc; "{a}.{b}.{c}.{d}:{}", host.address.port)?)
}

/// The name of a kind of tier.
fn kind_name(kind: TierKind) -> &'static str {
    match kind {
        TierKind::RoundRobin => "roundrobin",
        TierKind::Weighted => "weighted",
        TierKind::BestOf => "bestof",
    }
}
