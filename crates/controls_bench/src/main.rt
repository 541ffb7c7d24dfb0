//! How fast the controls of a request are read and one is put first, and how fast the action of a request is found.
//!
//! With no argument it does each for a Compare with four controls, and with 100 OIDs restricted of each kind, and prints
//! what it found. With the argument `measure` it prints the nanoseconds of each call.
#![tactic(auto)]

use anyhow::{Context, Result, bail};
use ldap_controls::{Control, has, of_rest, with_first};
use ldap_messages::{Request, classify};
use restrictions::{Action, Restrictions};
use std::alloc::Global;
use std::env;
use std::rt::Clock;
use std::time::Instant;

/// How often each call is made to measure.
const CALLS: u32 = 1_000_000;

/// A Compare of the entry `o=a` with four controls, two of which are critical and two of which have a value.
const REQUEST: &[u8] =
    b"\x6E\x0C\x04\x03o=a\x30\x05\x04\x01o\x04\x00\xA0\x3D\x30\x0A\x04\x051.2.1\x01\x01\xFF\x30\x0B\x04\x051.2.2\x04\x02ab\x30\x18\x04\x051.2.3\x01\x01\xFF\x04\x0C0123456789AB\x30\x08\x04\x061.2.99";

/// The control that is put first.
const IDENTITY: Control<'static> = Control {
    oid: b"2.16.840.1.113730.3.4.18",
    critical: true,
    value: Some(b"dn:cn=ann,dc=example,dc=com"),
};

/// 100 OIDs are restricted of each kind: `1.2.0` to `1.2.99`, the last one of all to reject.
fn restricted(alloc: Global) -> Result<Restrictions> {
    let mut table = Restrictions::new(alloc);
    for number in 0..100u32 {
        let oid = format!(in alloc; "1.2.{number}")?;
        let action = if number == 99 {
            Action::Reject
        } else {
            Action::Write
        };
        let exop = table.set_exop(oid.as_bytes(), action);
        let control = table.set_control(oid.as_bytes(), action);
        if exop.is_err() || control.is_err() {
            bail!("no memory for a restriction");
        }
    }
    Ok(table)
}

/// How many controls the request has, by as many readings.
fn read(times: u32) -> Result<u64> {
    let mut found = 0u64;
    for _ in 0..times {
        let controls = of_rest(REQUEST).context("controls that can't be read")?;
        found = found.saturating_add(controls.len() as u64);
    }
    Ok(found)
}

/// How many octets the rest has with the control put first, as often as it is made.
fn put_first(alloc: Global, times: u32) -> Result<u64> {
    let mut octets = 0u64;
    for _ in 0..times {
        let Ok(rest) = with_first(alloc, REQUEST, &IDENTITY) else {
            bail!("no memory for a rest");
        };
        octets = octets.saturating_add(rest.len() as u64);
    }
    Ok(octets)
}

/// How often the action is to reject.
fn rejected(table: &Restrictions, rest: &[u8], times: u32) -> Result<u64> {
    let request = classify(rest).context("a request that can't be read")?;
    let mut found = 0u64;
    for _ in 0..times {
        if table.effective(&request, rest) == Action::Reject {
            found = found.saturating_add(1);
        }
    }
    Ok(found)
}

/// The nanoseconds of a call, where so many took the time since a moment.
fn nanoseconds_each(rt: &impl Clock, start: Instant) -> Result<u64> {
    let nanos = u64::try_from(start.elapsed(rt)?.as_nanos()).unwrap_or(u64::MAX);
    Ok(nanos / CALLS as u64)
}

/// An Extended request of the last name that is restricted.
const EXTENDED: &[u8] = b"\x77\x08\x80\x061.2.99";

fn measure(rt: &(impl Clock + Print), alloc: Global) -> Result<()> {
    let table = restricted(alloc)?;
    let start = Instant::now(rt)?;
    if read(CALLS)? != 4 * CALLS as u64 {
        bail!("a control was missing");
    }
    println!(rt;
        "of_rest and len, four controls: {} ns",
        nanoseconds_each(rt, start)?
    )?;
    let start = Instant::now(rt)?;
    put_first(alloc, CALLS)?;
    println!(rt;
        "with_first before four controls: {} ns",
        nanoseconds_each(rt, start)?
    )?;
    let start = Instant::now(rt)?;
    if rejected(&table, REQUEST, CALLS)? != CALLS as u64 {
        bail!("another action");
    }
    println!(rt;
        "effective, four controls, 100 OIDs of each kind: {} ns",
        nanoseconds_each(rt, start)?
    )?;
    let start = Instant::now(rt)?;
    if rejected(&table, EXTENDED, CALLS)? != CALLS as u64 {
        bail!("another action");
    }
    println!(rt;
        "effective, an Extended request, 100 OIDs of each kind: {} ns",
        nanoseconds_each(rt, start)?
    )?;
    Ok(())
}

fn main(rt: HostRuntime) -> Result<()> {
    let word = env::args(&rt)?.nth(1);
    match word.as_ref().map(|word| word.as_str()) {
        Some("measure") => measure(&rt, rt.alloc())?,
        _ => {
            let table = restricted(rt.alloc())?;
            let controls = read(1)?;
            let octets = put_first(rt.alloc(), 1)?;
            let named = rejected(&table, EXTENDED, 1)?;
            let actions = rejected(&table, REQUEST, 1)?.saturating_add(named);
            let known = has(REQUEST, b"1.2.3");
            println!(rt;
                "controls_bench: {controls} controls, {octets} octets with one more, {actions} of 2 requests rejected, 1.2.3 found: {known}"
            )?;
        }
    }
    Ok(())
}
