// There is no leak from test to training: two days that are alike have the same training labels and the
// same scale figures. There is no code here: the theorems, in specs/ with their proofs in proofs/, speak
// of the definitions that labelling, adding, packets and scale figures are proved to meet.
#![tactic(auto)]
