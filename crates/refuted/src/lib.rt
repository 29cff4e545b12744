// Builds that do too little, and builds that make an error of haste, each written down and proved not to meet a demand (RULES 17.5): see
// specs/ and proofs/. There is no code here.
#![tactic(auto)]
