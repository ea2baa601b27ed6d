// The index of promises: every theorem that docs/PROMISES.md names. There is no code here.
#![tactic(auto)]
