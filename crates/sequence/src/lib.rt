// Things by their number, from 0 on. There is no code here: specs/ has the definitions that labels, records
// and rows share, proofs/ their laws.
#![tactic(auto)]
