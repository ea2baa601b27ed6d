// What stays as it was: bytes, jobs and names that were taken before one of document 02's requests, and what the calls reply to them.
// Theorems about the calls' definitions alone; there is no code here.
#![tactic(auto)]
