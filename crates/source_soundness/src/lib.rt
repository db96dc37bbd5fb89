//! What a well formed program computes: its values are of the kinds that its types say, its pointers
//! are null or point to live objects, and objects keep their sizes.
#![tactic(auto)]

ghost use Rattle.source_soundness.specs.Laws.{CallsKeepTypes, PlacesAreLive, ProgramsBeginFitting, StatementsKeepTypes, ValuesHaveTheirTypes};
ghost use Rattle.source_soundness.specs.Sizes.{DeepCallsKeepSizes, PlacesLieWithin, ProgramsBeginSized, StatementsKeepSizes, ValuesKeepSizes};

/// An expression gives a value of its type.
pub fn values_have_their_types()
    ensures { ValuesHaveTheirTypes }
{}

/// A place names a live object, and has its type.
pub fn places_are_live()
    ensures { PlacesAreLive }
{}

/// Statements leave what is live fitting, and return values of their function's result.
pub fn statements_keep_types()
    ensures { StatementsKeepTypes }
{}

/// Calls give results of the callee's type, whatever the hosts answer, and leave what is live fitting.
pub fn calls_keep_types()
    ensures { CallsKeepTypes }
{}

/// Where main begins, globals and main's variables fit their types.
pub fn programs_begin_fitting()
    ensures { ProgramsBeginFitting }
{}

/// Expressions keep the sizes of objects, and give values of their types' sizes.
pub fn values_keep_sizes()
    ensures { ValuesKeepSizes }
{}

/// An object that a place designates lies in a live one.
pub fn places_lie_within()
    ensures { PlacesLieWithin }
{}

/// Statements keep the sizes of objects.
pub fn statements_keep_sizes()
    ensures { StatementsKeepSizes }
{}

/// Calls keep the sizes of objects, whatever the hosts answer.
pub fn deep_calls_keep_sizes()
    ensures { DeepCallsKeepSizes }
{}

/// Where main begins, globals and main's variables have their sizes.
pub fn programs_begin_sized()
    ensures { ProgramsBeginSized }
{}
