// The text layer: a script's bytes as tokens. Nothing is copied or allocated; a token is a part of the text.
#![tactic(auto)]

mod bracket;
mod bytes;
mod front;
mod integer;
mod keyword;
mod limits;
mod nesting;
mod reader;
mod refusal;
mod scanning;
mod token;
mod word;

pub use bracket::Bracket;
pub use keyword::Keyword;
pub use reader::Reader;
pub use refusal::{Refusal, Refused};
pub use scanning::scan;
pub use token::{Token, TokenKind};
