// The grammar of scripts: definitions and laws, and no code. The syntax tree, which text is which tree, and the limits.
#![tactic(auto)]

mod laws;

pub use laws::grammar_stands;
