// No code: histories of the box, over the very definitions that the calls' promises cite, and what is shown of every one of them.
// Document 01, "Moves" ("Letting go": told from the history alone) and the mission's third demand.
#![tactic(auto)]
