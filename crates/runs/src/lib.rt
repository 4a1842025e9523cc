#![tactic(auto)]

// A sequence of document 01 (docs/PAPERS.md), computed: every command is done, every kind of cut falls, and each relation has its instance. Theorems only.
