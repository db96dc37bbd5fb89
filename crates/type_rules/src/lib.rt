//! The rules of types: what each operator and conversion takes, and the type that it gives.
#![tactic(auto)]

mod conversions;
mod laws;
mod operators;
mod types;
mod unary;

pub use conversions::{
    CastRule, ChoiceRule, ConditionRule, Fit, cast_rule, choice_rule, compound_rule,
    condition_rule, fit_rule,
};
pub use laws::{
    arms_fit_their_choice, comparisons_are_symmetric, compounds_fit, conversions_answer,
    integers_fit_integers, operators_answer, pointers_fit_pointers, subscripts_are_sums,
    unary_rules_answer,
};
pub use operators::{Rule, binary_rule, index_rule, rule_type};
pub use types::{Type, Value, elem_type, is_same_elem, is_same_int, value_type};
pub use unary::{UnaryRule, deref_rule, not_rule, promoted_rule, step_rule};
