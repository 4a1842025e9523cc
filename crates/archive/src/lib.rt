#![tactic(auto)]

// What firmware links, joined to demand 3: a list of calls of the C interface, with the state as bytes, is a sequence of document 01
// (docs/PAPERS.md), and demand 3 holds of it (`Theorem.demand3_bytes`). Theorems only.
