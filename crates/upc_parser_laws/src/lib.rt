//! What the parsers find, by their definitions on lists of tokens: each proper tree that is no higher than they may go,
//! from its tokens, and no other tree.
#![tactic(auto)]
