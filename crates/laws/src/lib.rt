// What holds of every call at once: see proofs/, and specs/ for calls one after another. There is no code here.
#![tactic(auto)]
