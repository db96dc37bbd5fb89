// The hosts of a run.
ghost use Rattle.std.specs.List.Sorted.{IsStrictlySortedBy};
ghost use Rattle.std.specs.Map.{keys_of};
ghost use Rattle.std.specs.Ordering.{nat_cmp};
ghost use Rattle.std.proofs.Props.{props};

use crate::part::{copied_models, listed_models, numbers_of};
use pt_base::FnId;
use pt_tree::HostModel;
use std::alloc::{AllocError, Global};

/// What stands for the hosts of a run, by the numbers of their functions, and the run's input.
#[derive(Drop)]
pub struct Host {
    pub(crate) models: Vec<(u32, HostModel)>,
    pub(crate) input: Vec<u8>,
    ghost ordered: { IsStrictlySortedBy nat_cmp (keys_of models.items) } by { Prim.hlevel props },
}

#[tactic(auto, unfolding(crate::specs::Hosts::hosts_of))]
impl Host {
    ghost use Rattle.std.specs.Prelude.{◌≡◌, [], nat_eq, IfOk, OnOk, OnErr, IsSome, MatchOption, None, option_copied};
    ghost use Rattle.std.specs.List.{IsDistinct};
    ghost use Rattle.std.specs.Map.{lookup};
    ghost use Rattle.host_table.specs.Hosts.{hosts_of, models_by, part_of, IsPlaceOf};

    /// Hosts with these models and no input.
    pub fn from_models(alloc: Global, models: Vec<(u32, HostModel)>) -> Host
        requires { IsDistinct nat_eq (keys_of models.items) }
        ensures { hosts_of result ≡ record { models = models_by models.items; input = [] } }
    {
        let mut models = models;
        models.sort_unstable_by_key(|m| m.0);
        Host {
            models,
            input: Vec::new(alloc),
        }
    }

    /// The model of a host. None exactly where there is none of this number.
    pub fn model(&self, f: FnId) -> Option<&HostModel>
        ensures { option_copied result ≡ (hosts_of self.now).models f.0 }
    {
        match self.place(f) {
            Some(place) => Some(&self.models[place].1),
            None => None,
        }
    }

    /// The hosts with this input in the place of theirs. Where memory is wanting they stay as
    /// they are.
    pub fn give(&mut self, alloc: Global, input: &[u8]) -> Result<(), AllocError>
        ensures ok { OnOk result (hosts_of self.new ≡ record (hosts_of self.old) { input = input.now }) }
        ensures err { OnErr result (hosts_of self.new ≡ hosts_of self.old) }
    {
        self.input = Vec::from_slice(alloc, input)?;
        Ok(())
    }

    /// Hosts with the same models and this input.
    pub fn with_input(&self, alloc: Global, input: &[u8]) -> Result<Host, AllocError>
        ensures { IfOk result (λ h. hosts_of h ≡ record (hosts_of self.now) { input = input.now }) }
    {
        let models = copied_models(alloc, self.models.as_slice())?;
        let input = Vec::from_slice(alloc, input)?;
        Ok(Host { models, input })
    }

    /// The hosts that are listed, with the same models and input. What is listed and not here is
    /// passed over.
    pub fn part(&self, alloc: Global, of: &[FnId]) -> Result<Host, AllocError>
        ensures { IfOk result (λ h. hosts_of h ≡ part_of (hosts_of self.now) of.now) }
    {
        let listed = numbers_of(alloc, of)?;
        let models = listed_models(alloc, &listed, self.models.as_slice())?;
        let mut part = Host::from_models(alloc, models);
        part.give(alloc, self.input.as_slice())?;
        Ok(part)
    }

    // The place of a host among the models.
    pub(crate) fn place(&self, f: FnId) -> Option<usize>
        ensures { MatchOption result (lookup (nat_eq f.0) self.now.models.items ≡ None) (IsPlaceOf self.now.models.items f.0) }
    {
        match self.models.as_slice().binary_search_by_key(&f.0, |m| m.0) {
            Ok(place) => Some(place),
            Err(_) => None,
        }
    }
}
