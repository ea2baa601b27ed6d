// What document 02 promises of an open job: of opening, of its memory's rules and of lists of calls. Theorems about the calls' definitions alone; there is no code here.
#![tactic(auto)]
