// The worked cases of RULES section 16, document 01's 'Table to prove': see specs/Table.antt. There is no code here.
#![tactic(auto)]
