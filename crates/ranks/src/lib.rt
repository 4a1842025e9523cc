#![tactic(auto)]

// Redo by rank: what recovery redoes by rising version is one pass over the pages, in any order that keeps those of each identifier in scan
// order; refusal 4 in parts that can be asked in any order; dealing by digits, which sorts. Laws alone, in specs/: no code.
