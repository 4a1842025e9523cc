#![tactic(auto)]

// The definitions of document 01 (docs/PAPERS.md) at work: its starred bench cases, rows of its rules, the orders of its refusals, and its book. Theorems only.
