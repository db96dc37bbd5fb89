// A program made from a number, and what it is run with.
ghost use Rattle.std.specs.Prelude.{◌≡◌, IfOk};
ghost use Rattle.program_gen.specs.Functions.{functions_of};
ghost use Rattle.program_gen.specs.Policies.{policy_of};
ghost use Rattle.program_gen.specs.Programs.{hosts, program_of};

use crate::functions::draw_functions;
use crate::policies::policy_of;
use crate::programs::program_of;
use std::alloc::{AllocError, Global};

/// What the hosts do.
const HOSTS: &[u8] =
    b"{\"load\":{\"kind\":\"table\",\"rows\":[[[0],100],[[1],101],[[2],102],[[3],103]],\"else\":0},\"sign\":{\"kind\":\"table\",\"rows\":[],\"else\":7},\"put\":{\"kind\":\"line\"}}";

/// A program with what it is run with.
#[derive(Drop)]
pub struct Generated {
    /// The program's text.
    pub program: Vec<u8>,
    /// The text of its host table.
    pub host: Vec<u8>,
    /// The text of its policy.
    pub policy: Vec<u8>,
}

/// The program of so many functions that this seed gives, with its host table and its policy. It takes time and memory in the
/// number of functions. Seeds are meant to be below 2147483648, as the states behind them are.
///
/// # Errors
///
/// Want of memory alone.
pub fn generate(alloc: Global, seed: u32, functions: u32) -> Result<Generated, AllocError>
    ensures program { IfOk result (λ made. made.program.items ≡ program_of (functions_of seed functions)) }
    ensures host { IfOk result (λ made. made.host.items ≡ hosts) }
    ensures policy { IfOk result (λ made. made.policy.items ≡ policy_of (functions_of seed functions)) }
{
    let functions = draw_functions(alloc, seed, functions)?;
    let program = program_of(alloc, &functions)?;
    let policy = policy_of(alloc, &functions)?;
    let host = Vec::from_slice(alloc, HOSTS)?;
    Ok(Generated {
        program,
        host,
        policy,
    })
}
