// What we write reads back as the values we wrote, no two values are written alike, and what is read is written again as it came: see proofs/.
// There is no code here.
#![tactic(auto)]
