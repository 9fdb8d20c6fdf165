// Document 01's starred lines, as one checked list about the definitions that the contracts cite: see
// specs/Starred.antt. There is no code here.
#![tactic(auto)]
