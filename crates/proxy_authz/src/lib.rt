//! The identities of clients, and the control that carries one upstream (RFC 4370; RFC 4513, sections 5.1 and 5.2.1.8;
//! RFC 4532).
//!
//! The layer above may rely on this: each answer is that of the definitions of `lload_spec` and `ldap_spec`, for all
//! settings with the given name of the proxy's own; a request that is to carry an identity has the critical control
//! first in its list, and nothing else of it changes.
#![tactic(auto)]

mod carrying;
mod identities;
#[cfg(test)]
mod tests;

pub use carrying::{PROXIED_AUTHORIZATION, privileged, proxied};
pub use identities::{readable_who, simple_identity};
