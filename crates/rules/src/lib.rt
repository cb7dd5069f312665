// No code: specs/ holds the rules of docs/MANUAL.md as definitions, proofs/ their laws and the worked cases.
#![tactic(auto)]
