// No code: wrong boxes, each with a short history or input at which it breaks a promise or a demand.
// Document 01, "Ways the low gets turned round" and "How firmly each answer is tied down".
#![tactic(auto)]
