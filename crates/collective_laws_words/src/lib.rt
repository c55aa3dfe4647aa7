//! What a thread does in a collective call, and what the calls of all threads leave: words of the laws on collectives.
#![tactic(auto)]
