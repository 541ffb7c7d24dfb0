//! A forwarder of bytes over the real harbour: each client gets a connection to one of the servers in turn. It looks at
//! nothing that it passes on, so it tells what sockets, pollers and scheduling cost alone.
//!
//! `edge_bench WORKERS PORT SERVERPORT..` listens on 127.0.0.1 and serves until it is ended: with one worker on one thread,
//! and with more on a thread for each, which polls for itself, and one that accepts. With other words it ends at once.
#![tactic(auto)]

mod door;
mod serve;
mod slots;
mod worker;

use crate::serve::{Plan, serve};
use std::env;

fn main(rt: HostRuntime) -> anyhow::Result<()> {
    let mut numbers = Vec::new(rt.alloc());
    for word in env::args(&rt)? {
        if let Ok(number) = word.as_str().parse::<u16>() {
            numbers.push(number)?;
        }
    }
    match numbers.as_slice() {
        [workers, port, servers @ ..] if *workers > 0 && !servers.is_empty() => serve(
            &rt,
            rt.alloc(),
            Plan {
                workers: *workers,
                port: *port,
                servers,
            },
        ),
        _ => Ok(()),
    }
}
