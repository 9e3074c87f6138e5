// The starred cases of document 01, "What the class will test": `specs/Cases.antt` lists them with
// what the paper prints, and `proofs/Cases.antt` shows that the definitions give just that.
// There is no code here.
#![tactic(auto)]
