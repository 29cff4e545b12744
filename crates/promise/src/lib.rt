// The promises made to the user, as theorems over the gateway's definitions: see specs/ and proofs/. There is no code here.
#![tactic(auto)]
