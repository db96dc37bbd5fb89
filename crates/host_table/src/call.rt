// Calls of hosts.
use crate::answer::answer;
use crate::host::Host;
use pt_base::FnId;
use std::alloc::AllocError;

#[tactic(auto, unfolding(crate::specs::Hosts::hosts_of))]
impl Host {
    ghost use Rattle.std.specs.Prelude.{◌≡◌, ◌++◌, IsSome, IsOk, IfOk, IfSome, OnOk, OnErr, IsSomeAnd, None, ℕ};
    ghost use Rattle.std.specs.Map.{lookup};
    ghost use Rattle.host_table.specs.Hosts.{hosts_of, call_of, with_model, bytes_of, IsPlaceOf};

    /// Calls the host with these arguments: its result, if it has one. What it writes is appended
    /// to `out`, and its next model stands for it from then on. Where memory is wanting the hosts
    /// and `out` stay as they are; a host that never writes takes none.
    pub fn call(
        &mut self,
        f: FnId,
        args: &[i128],
        out: &mut Vec<u8>,
    ) -> Result<Option<i128>, AllocError>
        requires { IsSome ((hosts_of self.old).models f.0) }
        ensures result { IfOk result (λ o. IsSomeAnd (call_of (hosts_of self.old) f.0 args.now) (λ answer. o ≡ answer.result)) }
        ensures out { OnOk result (IsSomeAnd (call_of (hosts_of self.old) f.0 args.now) (λ answer. out.new.items ≡ out.old.items ++ bytes_of answer.written)) }
        ensures hosts { OnOk result (IsSomeAnd (call_of (hosts_of self.old) f.0 args.now) (λ answer. hosts_of self.new ≡ with_model (hosts_of self.old) f.0 answer.next)) }
        ensures same_hosts { OnErr result (hosts_of self.new ≡ hosts_of self.old) }
        ensures same_out { OnErr result (out.new.items ≡ out.old.items) }
        ensures takes_none { IfSome (call_of (hosts_of self.old) f.0 args.now) (λ answer. answer.written ≡ None → IsOk result) }
    {
        let place = self.place_in(f);
        let entry = &mut self.models[place];
        answer(&mut entry.1, self.input.as_slice(), args, out)
    }

    // The place of a host that is here.
    fn place_in(&self, f: FnId) -> usize
        requires { IsSome ((hosts_of self.now).models f.0) }
        ensures { IsPlaceOf self.now.models.items f.0 result }
    {
        self.place(f).unwrap()
    }
}

impl Host {
    ghost use Rattle.std.specs.Prelude.{◌≡◌, ◌++◌, IsOk, IfOk, OnOk, OnErr, None};
    ghost use Rattle.host_table.specs.Hosts.{hosts_of, bytes_of};
    ghost use Rattle.host_table.specs.RunHosts.{answer_in, AreAfter};

    /// Answers a call in a run: as `call` does where a host has the number; a number that no host has answers
    /// 0, writes nothing and stays so. Where memory is wanting the hosts and `out` stay as they are; what never
    /// writes takes none.
    pub fn answer(
        &mut self,
        f: FnId,
        args: &[i128],
        out: &mut Vec<u8>,
    ) -> Result<Option<i128>, AllocError>
        ensures result { IfOk result (λ o. o ≡ (answer_in (hosts_of self.old) f.0 args.now).result) }
        ensures out { OnOk result (out.new.items ≡ out.old.items ++ bytes_of (answer_in (hosts_of self.old) f.0 args.now).written) }
        ensures hosts { OnOk result (AreAfter (hosts_of self.old) f.0 (answer_in (hosts_of self.old) f.0 args.now).next (hosts_of self.new)) }
        ensures same_hosts { OnErr result (hosts_of self.new ≡ hosts_of self.old) }
        ensures same_out { OnErr result (out.new.items ≡ out.old.items) }
        ensures takes_none { (answer_in (hosts_of self.old) f.0 args.now).written ≡ None → IsOk result }
    {
        match self.model(f) {
            None => Ok(Some(0)),
            Some(_) => self.call(f, args, out),
        }
    }
}
