// The three demands of the person who asked, as theorems over the definitions that the contracts of the entry points cite.
//
// There is no code here. specs/Demands speaks of the entry points, specs/Exports of the functions for C; both hold definitions and
// the types of the theorems only, and the modules whose names end in `Hold` or `Holds` prove them.
#![tactic(auto)]
