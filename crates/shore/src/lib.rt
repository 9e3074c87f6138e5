// No code: the shore appears only in definitions. What a file is, what is laid on it, and the laws of that, stand in specs/ and proofs/.
// Document 01, "What the box's cache does".
#![tactic(auto)]
