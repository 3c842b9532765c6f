// The page of promises in specs/; in proofs/ the term that meets it, uniqueness of every outcome, the table.
#![tactic(auto)]
