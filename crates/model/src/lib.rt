#![tactic(auto)]

// Document 01 as definitions: specs/ is what a reader must believe, proofs/ has the laws that code and theorems share.
