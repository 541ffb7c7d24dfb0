ghost use Rattle.std.specs.Prelude.{◌≡◌, [], Ok, true, false, IfOk, IsSome, OnErr, is_none, is_some};
ghost use Rattle.lload_spec.specs.Binding.{action_for};
ghost use Rattle.restrictions.specs.Actions.{action_view, restriction_of, put};

use crate::action::Action;
use lload_names::NoMemory;
use std::alloc::Global;
use std::collections::BTreeMap;
use std::marker::Model;

/// The actions of some OIDs, which are compared as bytes. Contracts see the list of them by rising OID.
#[derive(Debug, Drop)]
pub(crate) struct Actions {
    by_oid: BTreeMap<Vec<u8>, Action>,
    alloc: Global,
}

impl Model for Actions {
    ghost use Rattle.std.specs.Prelude.{List};
    ghost use Rattle.lload_spec.specs.Settings.{Restriction};

    ghost Value = { List Restriction };

    ghost use Rattle.restrictions.specs.Actions.{restrictions_of};

    ghost view = { λ a. restrictions_of a.by_oid.entries };
}

impl Actions {
    /// No OID has an action. It takes no memory.
    pub(crate) fn new(alloc: Global) -> Actions
        ensures { result ≡ [] }
    {
        Actions {
            by_oid: BTreeMap::new(alloc),
            alloc,
        }
    }

    /// Whether an OID has an action.
    pub(crate) fn has(&self, oid: &[u8]) -> bool
        ensures { result ≡ is_some (restriction_of oid.now self.now) }
    {
        self.by_oid.contains_key(oid)
    }

    /// Gives an OID an action; `Ok(false)` exactly where it has one, and then nothing changes and no memory is wanted.
    /// For want of memory nothing changes.
    pub(crate) fn set(&mut self, oid: &[u8], action: Action) -> Result<bool, NoMemory>
        ensures answer { IfOk result (λ new. new ≡ is_none (restriction_of oid.now self.old)) }
        ensures put { result ≡ Ok true → self.new ≡ put oid.now (action_view action) self.old }
        ensures again { result ≡ Ok false → self.new ≡ self.old }
        ensures no_memory { IsSome (restriction_of oid.now self.old) → result ≡ Ok false }
        ensures err { OnErr result (self.new ≡ self.old) }
    {
        if self.by_oid.contains_key(oid) {
            return Ok(false);
        }
        self.by_oid.insert(oid.to_vec(self.alloc)?, action)?;
        Ok(true)
    }

    /// The action of an OID, or another where it has none.
    pub(crate) fn action_or(&self, oid: &[u8], default: Action) -> Action
        ensures { action_view result ≡ action_for self.now oid.now (action_view default) }
    {
        match self.by_oid.get(oid) {
            Some(action) => *action,
            None => default,
        }
    }

    /// The same actions again.
    pub(crate) fn copy(&self) -> Result<Actions, NoMemory>
        ensures { IfOk result (λ copy. copy ≡ self.now) }
    {
        Ok(Actions {
            by_oid: self.by_oid.clone()?,
            alloc: self.alloc,
        })
    }
}
