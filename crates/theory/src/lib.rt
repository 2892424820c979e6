#![tactic(auto)]

// Theorems only: they are about the definitions of crate model. No function is declared.
