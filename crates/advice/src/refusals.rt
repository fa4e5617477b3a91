// A sentence for each refusal: what is wrong, and what to try.
ghost use Rattle.std.specs.Prelude.{◌≡◌, IsTrue};
ghost use Rattle.advice.specs.Sentences.{is_sentence, refusal_sentence, store_sentence};

use cells::refusals::StoreRefusal;
use script_refusals::Refusal;

const SYMBOL: &str =
    "This symbol is not closed or wrongly escaped: end it with ', and put a backslash before each ' and each backslash inside, and before nothing else.";

const INTEGER: &str =
    "This integer does not fit 32 bits: write one from -2147483648 to 2147483647.";

const BRACKET: &str =
    "A closing bracket is missing here, or this one does not match: give each ( its ) and each [ its ].";

const FORM: &str =
    "Nothing of this kind can stand here: look at the word after the bracket, and at how many parts it has.";

const LIMIT: &str =
    "A limit is passed here: shorten or split what stands here. A text has at most 65535 bytes, a name 63, a symbol 255 between its quotes; at most 64 brackets are open at a time and 64 local names in scope; there are at most 4096 expressions, branches and bindings, 512 type expressions, 256 defines and vals, 64 datatypes, 256 constructors, and 6 parameters or fields each.";

const REPEATED: &str =
    "This name is taken already, by the script, the basis or a name in scope: choose another one.";

const UNKNOWN: &str =
    "Nothing binds this name here: look at its spelling, and put a val before the place where it is used.";

const UNPAIRED: &str =
    "A define needs one annotation with its name, (: name type), and an annotation needs its define: write the other one.";

const MISMATCH: &str =
    "Types or numbers of parts do not fit in this form: compare each part with what the form, the function or the constructor takes.";

const CONSUMED: &str =
    "This name was used up before: data is used at most once, so write (dup name) where it is used first.";

const NO_MAIN: &str =
    "The script has no main: write (: main (-> () unit)) and (define main () ...).";

const NODE_LIST: &str =
    "The host lends too few nodes for this script: ask for more, or shorten the script before this place.";

const CHANGED: &str =
    "The text or the node list is not the one that was read: hand both over as reading left them.";

const DEAD_CELL: &str =
    "This number is not that of a live cell: use the numbers that a take answered, and none after it was given back.";

const NO_FREE_CELL: &str =
    "No cell is free: give one back before the next is taken, or make the store over more cells.";

// A refusal of reading or checking.
pub fn refusal_advice(refusal: Refusal) -> &'static str
    ensures words { result.now ≡ refusal_sentence refusal }
    ensures sentence { IsTrue (is_sentence result.now) }
{
    match refusal {
        Refusal::Symbol => SYMBOL,
        Refusal::Integer => INTEGER,
        Refusal::Bracket => BRACKET,
        Refusal::Form => FORM,
        Refusal::Limit => LIMIT,
        Refusal::Repeated => REPEATED,
        Refusal::Unknown => UNKNOWN,
        Refusal::Unpaired => UNPAIRED,
        Refusal::Mismatch => MISMATCH,
        Refusal::Consumed => CONSUMED,
        Refusal::NoMain => NO_MAIN,
        Refusal::NodeList => NODE_LIST,
        Refusal::Changed => CHANGED,
    }
}

// A refusal of a store.
pub fn store_advice(refusal: StoreRefusal) -> &'static str
    ensures words { result.now ≡ store_sentence refusal }
    ensures sentence { IsTrue (is_sentence result.now) }
{
    match refusal {
        StoreRefusal::DeadCell => DEAD_CELL,
        StoreRefusal::NoFreeCell => NO_FREE_CELL,
    }
}
