// The runner for hosts in other languages: two functions over numbers and slices. All that a run needs besides is taken from the C library's
// heap and given back before the call returns, and each run is closed.
#![tactic(auto)]

ghost use Rattle.std.specs.Prelude.{◌≡◌, ◌≢◌};
ghost use Rattle.c_host.specs.Told.{no_memory, checked, Ran};
ghost use Rattle.rehearsal.specs.Judged.{judgement};

mod answer;
mod sizes;
mod whole;

pub use answer::Answer;
pub use sizes::Sizes;
use std::alloc::Global;
use whole::{checked_so, run_so};

// Reads and checks a script.
#[unsafe(no_mangle)]
pub extern "C" fn tosspear_check(heap: Global, text: &[u8], answer: &mut Answer)
    ensures { answer.new ≢ no_memory → answer.new ≡ checked (judgement text.now 4096) }
{
    *answer = checked_so(heap, text).unwrap_or(Answer::NO_MEMORY);
}

// Reads and checks a script, and runs it over an input in one advance; what it prints goes to the front of the output slice.
#[unsafe(no_mangle)]
pub extern "C" fn tosspear_run(
    heap: Global,
    text: &[u8],
    input: &[u8],
    out: &mut [u8],
    sizes: &Sizes,
    answer: &mut Answer,
)
    ensures ran { answer.new ≢ no_memory → Ran input.now sizes.now out.old (judgement text.now sizes.now.nodes) answer.new out.new }
    ensures same { answer.new ≡ no_memory → out.new ≡ out.old }
{
    *answer = run_so(heap, text, input, out, *sizes).unwrap_or(Answer::NO_MEMORY);
}
