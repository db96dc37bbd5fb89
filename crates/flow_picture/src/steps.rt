// The steps of the ways that faults tell.
ghost use Rattle.std.specs.Prelude.{◌≡◌, IfOk};
ghost use Rattle.std.specs.List.Sorted.{IsSorted};
ghost use Rattle.pt_base.specs.declared.span.Span.{Span};
ghost use Rattle.flow_rules.specs.Faults.{span_cmp};
ghost use Rattle.flow_picture.specs.Kept as kept;

use crate::order::arrange_spans;
use flow_rules::FlowFault;
use pt_base::Span;
use std::alloc::{AllocError, Global};

// the steps, as they stand
fn steps_in(alloc: Global, faults: &[FlowFault]) -> Result<Vec<Span>, AllocError>
    ensures { IfOk result (λ v. v.items ≡ kept.told_steps faults.now) }
{
    let mut steps = Vec::new(alloc);
    for fault in faults {
        steps.extend_from_slice(fault.path.as_slice())?;
    }
    Ok(steps)
}

/// The steps, in order.
pub(crate) fn steps_of(alloc: Global, faults: &[FlowFault]) -> Result<Vec<Span>, AllocError>
    ensures sorted { IfOk result (λ v. IsSorted span_cmp v.items) }
    ensures told { IfOk result (λ v. (span : Span) → kept.is_told v.items span ≡ kept.is_told (kept.told_steps faults.now) span) }
{
    let mut steps = steps_in(alloc, faults)?;
    arrange_spans(&mut steps);
    Ok(steps)
}
