ghost use Rattle.std.specs.Prelude.{◌≡◌, [], Ok, Some, true, false, IfOk, IsSome, OnErr, is_none, is_some};
ghost use Rattle.ldap_spec.specs.Requests.{request as request_of};
ghost use Rattle.ldap_messages.specs.Requests.{view};
ghost use Rattle.lload_spec.specs.Binding.{action as action_of, highest};
ghost use Rattle.lload_spec.specs.Settings.{Settings};
ghost use Rattle.restrictions.specs.Actions.{action_view, restriction_of, put};
ghost use Rattle.restrictions.specs.Table.{HasRestrictions, with_exop, with_control};

use crate::action::{Action, own_action};
use crate::actions::Actions;
use ldap_controls::{Controls, of_rest};
use ldap_messages::Request;
use lload_names::NoMemory;
use std::alloc::Global;

/// The actions of Extended requests by their names, and of the requests with a control by its OID.
#[derive(Debug, Drop)]
pub struct Restrictions {
    exops: Actions,
    controls: Actions,
}

impl Restrictions {
    /// No request is restricted. It takes no memory; `alloc` serves later growth.
    pub fn new(alloc: Global) -> Restrictions
        ensures exops { result.exops ≡ [] }
        ensures controls { result.controls ≡ [] }
    {
        Restrictions {
            exops: Actions::new(alloc),
            controls: Actions::new(alloc),
        }
    }

    /// Whether the Extended requests of this name were restricted. It takes no memory.
    pub fn has_exop(&self, oid: &[u8]) -> bool
        ensures { result ≡ is_some (restriction_of oid.now self.now.exops) }
    {
        self.exops.has(oid)
    }

    /// Whether the requests with this control were restricted. It takes no memory.
    pub fn has_control(&self, oid: &[u8]) -> bool
        ensures { result ≡ is_some (restriction_of oid.now self.now.controls) }
    {
        self.controls.has(oid)
    }

    /// Restricts the Extended requests of this name (`restrict_exop`); the name `1.1` stands for all that have no
    /// action. `Ok(false)` exactly where the name was set before, and then nothing changes and no memory is wanted. For
    /// want of memory nothing changes.
    pub fn set_exop(&mut self, oid: &[u8], action: Action) -> Result<bool, NoMemory>
        ensures answer { IfOk result (λ new. new ≡ is_none (restriction_of oid.now self.old.exops)) }
        ensures put { result ≡ Ok true → self.new ≡ with_exop oid.now (action_view action) self.old }
        ensures again { result ≡ Ok false → self.new ≡ self.old }
        ensures no_memory { IsSome (restriction_of oid.now self.old.exops) → result ≡ Ok false }
        ensures err { OnErr result (self.new ≡ self.old) }
    {
        self.exops.set(oid, action)
    }

    /// Restricts the requests, other than Bind and Extended ones, that have this control (`restrict_control`).
    /// `Ok(false)` exactly where the OID was set before, and then nothing changes and no memory is wanted. For want of
    /// memory nothing changes.
    pub fn set_control(&mut self, oid: &[u8], action: Action) -> Result<bool, NoMemory>
        ensures answer { IfOk result (λ new. new ≡ is_none (restriction_of oid.now self.old.controls)) }
        ensures put { result ≡ Ok true → self.new ≡ with_control oid.now (action_view action) self.old }
        ensures again { result ≡ Ok false → self.new ≡ self.old }
        ensures no_memory { IsSome (restriction_of oid.now self.old.controls) → result ≡ Ok false }
        ensures err { OnErr result (self.new ≡ self.old) }
    {
        self.controls.set(oid, action)
    }

    /// The action of a request, which is what `classify` reads of the rest: an Extended one has that of its name, else
    /// that of `1.1`; another, but for Bind, Unbind and Abandon, has the highest of its own and those of its controls.
    /// One whose controls can't be read has none. It takes no memory.
    pub fn effective(&self, request: &Request<'_>, rest: &[u8]) -> Action
        requires { request_of rest.now ≡ Some (view request.now) }
        ensures { (s : Settings) → HasRestrictions s self.now → action_view result ≡ action_of s rest.now }
    {
        let Some(controls) = of_rest(rest) else {
            return Action::Ignore;
        };
        match request {
            Request::Plain(kind) => self.highest(own_action(*kind), controls),
            Request::Extended { name } => {
                let any = self.exops.action_or(b"1.1", Action::Ignore);
                self.exops.action_or(*name, any)
            }
            Request::Bind(_) | Request::Unbind | Request::Abandon { .. } => Action::Ignore,
        }
    }

    /// The highest of an action and those of some controls.
    fn highest(&self, own: Action, controls: Controls<'_>) -> Action
        ensures { (s : Settings) → HasRestrictions s self.now → action_view result ≡ highest s (action_view own) controls.entry }
    {
        let mut action = own;
        let mut left = controls;
        while let Some((control, behind)) = left.split_first() {
            action = action.higher(self.controls.action_or(control.oid, Action::Ignore));
            left = behind;
        }
        action
    }

    /// The same restrictions again. For want of memory nothing is made.
    pub fn copy(&self) -> Result<Restrictions, NoMemory>
        ensures { IfOk result (λ copy. copy ≡ self.now) }
    {
        let exops = self.exops.copy()?;
        let controls = self.controls.copy()?;
        Ok(Restrictions { exops, controls })
    }
}
