// A sentence for each refusal of the text layer: what is wrong, and what to do.
use advice::refusal_advice;
use text::{Refusal, Refused};

// The limits of a text alone; the sentence for whole scripts names more.
const LIMIT: &str =
    "A limit is passed here: shorten the text to 65535 bytes, a name to 63, a symbol to 255 between its quotes, or open at most 64 brackets at a time.";

pub fn text_advice(refused: Refused) -> &'static str {
    match refused.refusal {
        Refusal::Limit => LIMIT,
        _ => refusal_advice(script_refusals::Refusal::from(refused.refusal)),
    }
}
