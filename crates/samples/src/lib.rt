// Sample images and calls, and one name that opens the definitions to computation, for the tables of numbers above (proofs/). There is no code here.
#![tactic(auto)]
