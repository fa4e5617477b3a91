// The bodies of a script: the type of each expression by the rules, or the first refusal, and what each of its nodes does in a run.
#![tactic(auto)]

mod expressions;
mod heads;
mod signature;

pub use expressions::expression;
