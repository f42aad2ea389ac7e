//! The tokens of texts in which white space is free, as DAS and Error objects are: a text and a place
//! in, the next whole token with its places out. `specs/Tokens` says which bytes are a token, when it
//! is whole, and what stands where none is left.
#![tactic(auto)]

mod laws;
mod tokens;
mod values;

pub use laws::whole_tokens;
pub use tokens::{Kind, Token, next_token, white_end};
