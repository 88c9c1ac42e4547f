//! The text of the program `nts`: lines of input, their tokens, their grammar and the names in them.
//!
//! A line is cut into tokens, parsed into a command, and checked against the names that were
//! declared before. What comes out names everything by number. Nothing here recurses over the
//! nesting of a type, so a line may nest as deeply as memory allows.
#![tactic(auto)]

mod arguments;
mod commands;
mod kinds;
mod known;
mod lexer;
mod names;
mod params;
mod parser;
mod predicates;
mod reader;
mod refusals;
mod resolver;

pub use commands::{Command, read_command};
pub use lexer::{Token, TokenKind, skip_blanks, token_at, tokens_of};
pub use names::{Bounds, Declared, NameTable, Scope, Signature, Spellings, known_type};
pub use parser::{Keyword, Line, Mode, Param, keyword_of, line_of, number_of};
pub use predicates::{Node, Role, Wanted, predicates_of};
pub use reader::{ReadError, next_line};
pub use refusals::{Refusal, TextError};
pub use resolver::{Resolved, Site, resolve_nodes};
