ghost use Rattle.std.specs.Prelude.{◌≡◌, IfOk};
ghost use Rattle.lload_conf.specs.Answers.{IsConfig};
ghost use Rattle.lload_conf.specs.Configuration.{check_text};

use crate::config::Config;
use lload_names::{Body, NoMemory};
use std::alloc::Global;

/// The line that is written of a configuration that was checked: how many tiers, backends and places it has.
pub fn check_text(alloc: Global, config: &Config) -> Result<Body, NoMemory>
    requires { IsConfig config.now }
    ensures { IfOk result (λ text. text ≡ check_text config.now) }
{
    let tiers = config.plan.len();
    let backends = config.hosts.len();
    let places = config.plan.place_count();
    let text = format!(in alloc;
        "configuration accepted: {tiers} tiers, {backends} backends, {places} places\n"
    )?;
    Ok(Body::from_vec(text.into_bytes()))
}
