// The cases of reading: gives each text of `cases.txt` with a node list to `read` and compares with the answer that stands beside it.
//
// The file reads as `case_files` says, with two words more:
//
//   lent N                          the node list has N entries; 4096 where a case does not say
//   row WORDS                       one line of what reading leaves: a node, or an entry of a table. A case lists all of them, or none
//
// A case without a `text`, `times` or `hex` line is the empty text.
//
// Before each case every entry of the node list is in use. After a refusal none may be; after acceptance none behind the script's nodes, and
// the script has to know the list again, but not with one entry changed.
//
// Rows, in this order, with numbers from 0 and a name as its place and size:
//
//   node PLACE PAST FORM            the form with what it carries, as `integer 5`, `symbol 3`, `binding 4 1`
//   datatype PLACE NAME FIRST PAST                       constructor PLACE NAME DATATYPE FIRST PAST FIELDS
//   annotation PLACE NAME ROOT                           define PLACE NAME FIRST PAST BODY
//   val PLACE NAME BODY                                  parameter NAME
//   type PLACE PAST FORM                                 function NAME ANNOTATION DEFINE, `-` for none
#![tactic(auto)]

mod node_rows;
mod rows;
mod scripts;

use case_files::run_cases;
use scripts::Scripts;
use std::io;

fn main(rt: HostRuntime) -> io::Result<()> {
    run_cases(&rt, "row", Scripts::new())
}
