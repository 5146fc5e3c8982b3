//! The acts of each request among the steps.
ghost use Rattle.std.specs.Prelude.{◌≡◌, ◌<◌, ℕ, slice_get, Some, IfOk};
ghost use Rattle.life_script.specs.declared.scenario.Step.{Step as StepView};
ghost use Rattle.life_session.specs.Acts.{Counts};

use life_core::Got;
use life_script::Step;
use std::alloc::Global;

/// How many of the steps are of each request.
pub(crate) fn count_steps(alloc: Global, requests: u64, steps: &[Step]) -> Got<Vec<u64>>
    requires { (k : ℕ) (x : StepView) → slice_get steps.now k ≡ Some x → x.request < requests }
    ensures { IfOk result (λ counts. Counts requests steps.now counts.items) }
{
    let mut counts = vec![in alloc; 0u64; requests as usize]?;
    for step in steps {
        let i = step.request as usize;
        counts[i] += 1;
    }
    Ok(counts)
}
