// The cases of the text layer: gives each text of `cases.txt` to the scan and compares with the answer that stands beside it.
//
// The file reads as `case_files` says, with one word more:
//
//   token PLACE SIZE KIND           one token that is expected, with its bytes' number; the kind is a bracket, `symbol`, `name`,
//                                   `integer VALUE` or `keyword WORD`. A case lists all of its tokens, or none
//
// A case without a `text`, `times` or `hex` line is the empty text.
#![tactic(auto)]

mod described;
mod tokens;

use case_files::run_cases;
use std::io;
use tokens::Tokens;

fn main(rt: HostRuntime) -> io::Result<()> {
    run_cases(&rt, "token", Tokens)
}
