// What the contracts of the code promise is what `ours`, the build that the demands are proved of, does: see proofs/. There is no code here.
#![tactic(auto)]
