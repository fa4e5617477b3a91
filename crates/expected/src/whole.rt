// What the advances of a case come to together.
ghost use Rattle.std.specs.Prelude.{◌≡◌, IfOk, min, sum_by};
ghost use Rattle.std.specs.List.{flat_map};
ghost use Rattle.cases.specs.declared.case.Advance.{Advance};

use cases::Advance;
use std::alloc::{AllocError, Global};

// All that is written.
pub fn output_of(heap: Global, advances: &[Advance<'_>]) -> Result<Vec<u8>, AllocError>
    ensures { IfOk result (λ bytes. bytes.items ≡ flat_map (λ (a : Advance). a.bytes.now) advances.now) }
{
    let mut output = Vec::new(heap);
    for advance in advances {
        output.extend_from_slice(advance.bytes)?;
    }
    Ok(output)
}

// All steps, as far as a number of 64 bits goes.
pub fn steps_of(advances: &[Advance<'_>]) -> u64
    ensures { result ≡ min (sum_by (λ (a : Advance). a.steps) advances.now) u64.MAX }
{
    let mut steps: u64 = 0;
    for advance in advances {
        steps = steps.saturating_add(u64::from(advance.steps));
    }
    steps
}
