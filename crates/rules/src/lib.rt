// The rules of the calls: the table of refusals, and what each call says, does to the state and does to every byte.
// Document 01, "Moves" and "When the box says no". There is no code here: the calls' promises and the histories cite these definitions.
#![tactic(auto)]
