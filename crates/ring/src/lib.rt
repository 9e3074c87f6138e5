// The laws of the ring: what is stored is read back, and nothing else moves.
// Document 01, "The ring in battery memory". There is no code here: `proofs/Laws.antt` is the one
// file that the layers above cite for the ring's bytes, whatever the layers below do to keep it.
// `proofs/Cutting.antt` and `proofs/Several.antt` say what a run of stores leaves that is cut short.
#![tactic(auto)]
