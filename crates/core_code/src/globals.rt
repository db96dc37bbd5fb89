// The globals of a program, found by their numbers.
ghost use Rattle.std.specs.Prelude.{◌≡◌, true};
ghost use Rattle.core_code.specs.Globals.{numbers_rise, rise_from, type_in};

use pt_base::{GlobalId, IntType};
use pt_core::GlobalVar;
use std::marker::Model;
use typed_tree::VarTy;

/// The globals of a program. Contracts see them as a list. Where their numbers rise, as they do in
/// a program that is well formed, a global is found by halves.
#[derive(Drop)]
pub struct Globals<'a> {
    list: &'a [GlobalVar],
    rising: bool,
}

impl<'a> Model for Globals<'a> {
    ghost use Rattle.std.specs.Prelude.{List};
    ghost use Rattle.pt_core.specs.declared.global.GlobalVar.{GlobalVar};

    ghost Value = { List GlobalVar };

    ghost use Rattle.std.specs.Prelude.{◌≡◌};
    ghost use Rattle.core_code.specs.Globals.{numbers_rise};

    ghost view = { λ g. g.list.now };

    ghost invariant = { λ g. g.rising ≡ numbers_rise g.list.now };
}

impl<'a> Globals<'a> {
    ghost use Rattle.std.specs.Prelude.{◌≡◌};
    ghost use Rattle.core_code.specs.Globals.{type_in};

    /// The globals of this list.
    pub fn new(list: &'a [GlobalVar]) -> Globals<'a>
        ensures { result ≡ list.now }
    {
        let rising = are_rising(list);
        Globals { list, rising }
    }

    /// The type of a global; int where there is none of this number. Of two of one number it is the
    /// first one's.
    pub fn type_of(&self, g: GlobalId) -> VarTy
        ensures { result ≡ type_in self.now g.0 }
    {
        if self.rising {
            searched(self.list, g)
        } else {
            walked(self.list, g)
        }
    }
}

// Whether each has a greater number than those before it.
fn are_rising(globals: &[GlobalVar]) -> bool
    ensures { result ≡ numbers_rise globals.now }
{
    let mut least = 0u64;
    for global in globals {
        let number = u64::from(global.id.0);
        if number < least {
            return false;
        }
        least = number + 1;
    }
    true
}

// The type of a global among globals whose numbers rise.
fn searched(globals: &[GlobalVar], g: GlobalId) -> VarTy
    requires rising { numbers_rise globals.now ≡ true }
    ensures { result ≡ type_in globals.now g.0 }
{
    match globals.binary_search_by_key(&g.0, |global| global.id.0) {
        Ok(place) => globals[place].var.ty,
        Err(_) => VarTy::Int(IntType::Int),
    }
}

// The type of a global among any globals.
fn walked(globals: &[GlobalVar], g: GlobalId) -> VarTy
    ensures { result ≡ type_in globals.now g.0 }
{
    for global in globals {
        if g.0 == global.id.0 {
            return global.var.ty;
        }
    }
    VarTy::Int(IntType::Int)
}
