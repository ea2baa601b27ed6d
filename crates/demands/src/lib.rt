// What the papers promise of the calls: the three demands, when each refusal is given, the cases K1 to K10. Theorems about the calls'
// definitions alone; there is no code here.
#![tactic(auto)]
