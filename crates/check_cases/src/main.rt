// The cases of the check: gives each text of `cases.txt` to `read` and to `check` and compares with the answer that stands beside it. An
// accepted script has so many defines and vals.
//
// The file reads as `case_files` says, with three words more:
//
//   row LINE                        a line of the explanation of a refusal of the check, where a case says how it reads
//   lent N                          the node list has N entries; 4096 where a case does not say
//   changed text                    the check is handed another text
//   changed nodes|last              it is handed a node list whose first, or last, entry is another
//   changed shorter                 it is handed a node list without its last entry
//
// A case without a `text`, `times` or `hex` line is the empty text.
#![tactic(auto)]

mod scripts;

use case_files::run_cases;
use scripts::Scripts;
use std::io;

fn main(rt: HostRuntime) -> io::Result<()> {
    run_cases(&rt, "row", Scripts::new())
}
