ghost use Rattle.std.specs.Prelude.{◌≡◌, ◌≤◌, ℕ, [], option_map, IfOk, IfSome};
ghost use Rattle.ldap_spec.specs.Bodies.{simple_bind};
ghost use Rattle.upstream_conn.specs.Part.{request_of};
ghost use Rattle.lload_spec.specs.Settings.{Settings};
ghost use Rattle.client_session.specs.Checks.{Agrees};
ghost use Rattle.lload_conf.specs.Answers.{IsConfig, IsOwnBind};
ghost use Rattle.proxy_parts.specs.States.{IsSetTo};
ghost use Rattle.proxy_core.specs.Made.{AreOf};
ghost use Rattle.proxy_core.specs.Runs.{Stands};

use crate::world::World;
use client_session::ClientSettings;
use conn_core::{OwnBindBytes, UpSettings};
use ldap_messages::bind_rest;
use letter_queues::LetterQueues;
use lload_conf::{Config, OwnBind};
use lload_names::{Body, NoMemory};
use lload_reload::Plans;
use load_desk::Desk;
use proxy_parts::{Clients, Connections};
use std::alloc::Global;

impl World {
    /// The world of a configuration before anything happened, whose connections retire at an identifier (`--id-limit`,
    /// by default half of the greatest one). For want of memory nothing is made.
    pub fn new(alloc: Global, config: &Config, id_limit: u32) -> Result<World, NoMemory>
        requires config { IsConfig config.now }
        requires least { 2 ≤ id_limit }
        requires most { id_limit ≤ 1073741823 }
        ensures { IfOk result (λ w. (s : Settings) → AreOf s id_limit config.now → Stands s [] w) }
    {
        let clients = client_settings(config)?;
        let connections = up_settings(alloc, config, id_limit)?;
        let desk = Desk::new(alloc, config.plan.copy()?)?;
        let plans = Plans::new(alloc, config.plan.copy()?)?;
        Ok(World {
            desk,
            clients: Clients::new(alloc, clients),
            connections: Connections::new(alloc, connections),
            letters: LetterQueues::new(alloc),
            plans,
            greatest: 0,
            alloc,
        })
    }
}

/// What clients' parts are made of, by a configuration.
fn client_settings(config: &Config) -> Result<ClientSettings, NoMemory>
    ensures { IfOk result (λ c. (s : Settings) (limit : ℕ) → AreOf s limit config.now → Agrees s c) }
{
    let binddn = own_name(&config.own_bind)?;
    let restrictions = config.restrictions.copy()?;
    Ok(ClientSettings {
        max_pending: config.client_max_pending,
        proxyauthz: config.proxyauthz,
        binddn,
        write_coherence: config.write_coherence,
        restrictions,
    })
}

/// The name of an own Bind, where there is one.
fn own_name(own: &Option<OwnBind>) -> Result<Option<Body>, NoMemory>
    ensures { IfOk result (λ name. name ≡ option_map (λ bind. bind.dn) own.now) }
{
    match own {
        None => Ok(None),
        Some(bind) => {
            let name = bind.dn.copy()?;
            Ok(Some(name))
        }
    }
}

/// What connections' parts are made of, by a configuration.
fn up_settings(alloc: Global, config: &Config, id_limit: u32) -> Result<UpSettings, NoMemory>
    requires { IfSome config.now.own_bind IsOwnBind }
    ensures settings { IfOk result (λ u. (s : Settings) → AreOf s id_limit config.now → IsSetTo s u) }
    ensures limit { IfOk result (λ u. u.id_limit ≡ id_limit) }
{
    let own_bind = own_request(alloc, &config.own_bind)?;
    Ok(UpSettings {
        own_bind,
        timeout: config.timeout,
        id_limit,
    })
}

/// The request of an own Bind, where there is one.
fn own_request(alloc: Global, own: &Option<OwnBind>) -> Result<Option<OwnBindBytes>, NoMemory>
    requires { IfSome own.now IsOwnBind }
    ensures { IfOk result (λ r. request_of r ≡ option_map (λ bind. simple_bind bind.dn bind.credentials) own.now) }
{
    match own {
        None => Ok(None),
        Some(bind) => {
            let rest = bind_rest(alloc, bind.dn.as_slice(), bind.credentials.as_slice())?;
            Ok(Some(OwnBindBytes { rest }))
        }
    }
}
