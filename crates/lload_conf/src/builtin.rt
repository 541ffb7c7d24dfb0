ghost use Rattle.std.specs.Prelude.{◌≡◌, ◌≤◌, length, IfOk, IsOk, Ok};
ghost use Rattle.lload_conf.specs.Answers.{IsConfig};
ghost use Rattle.lload_conf.specs.Configuration.{bench_text, configuration, plain_text};
ghost use Rattle.lload_conf.specs.RunSettings.{settings_of};
ghost use Rattle.lload_spec.specs.Bench.{bench as bench_settings};
ghost use Rattle.lload_spec.specs.Plain.{plain as plain_settings};
ghost use Rattle.lload_spec.specs.Settings.{usual_limit};

use crate::config::Config;
use crate::reading::{ConfFault, read};
use lload_names::NoMemory;
use std::alloc::Global;

/// The text of `plain`.
const PLAIN: &[u8] =
    b"tier roundrobin\nbackend-server uri=ldap://127.0.0.1 numconns=1 bindconns=1\n";

/// The text of `bench`.
const BENCH: &[u8] =
    b"tier roundrobin\nbackend-server uri=ldap://127.0.0.1 numconns=2 bindconns=1\nbackend-server uri=ldap://127.0.0.1 numconns=2 bindconns=1\n";

/// The built-in configuration of one backend, with one regular and one bind connection.
pub fn plain(alloc: Global) -> Result<Config, NoMemory>
    ensures text { IfOk result (λ config. configuration plain_text ≡ Ok config) }
    ensures settings { IfOk result (λ config. settings_of usual_limit config ≡ plain_settings) }
    ensures conditions { IfOk result (λ config. IsConfig config) }
{
    built_in(alloc, PLAIN)
}

/// The built-in configuration that long scripts run on: two backends, each with two regular connections and a bind
/// connection.
pub fn bench(alloc: Global) -> Result<Config, NoMemory>
    ensures text { IfOk result (λ config. configuration bench_text ≡ Ok config) }
    ensures settings { IfOk result (λ config. settings_of usual_limit config ≡ bench_settings) }
    ensures conditions { IfOk result (λ config. IsConfig config) }
{
    built_in(alloc, BENCH)
}

/// The configuration of a text that has no fault.
fn built_in(alloc: Global, text: &[u8]) -> Result<Config, NoMemory>
    requires short { length text.now ≤ 1048576 }
    requires accepted { IsOk (configuration text.now) }
    ensures text { IfOk result (λ config. configuration text.now ≡ Ok config) }
    ensures conditions { IfOk result (λ config. IsConfig config) }
{
    match read(alloc, text) {
        Ok(config) => Ok(config),
        Err(ConfFault::NoMemory) => Err(NoMemory),
        Err(ConfFault::Line { .. }) => unreachable!(),
    }
}
