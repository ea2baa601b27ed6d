// The words that every crate of the engine is written in, and their laws: tests over lists, answers that may be refusals, lists in
// arrays, least numbers. It has no code.
#![tactic(auto)]
