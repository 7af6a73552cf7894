#![tactic(auto)]

// Demand 3, one claim about every list of calls: see specs/. No function is here, only the claim and its proof, above `model` and beside the code, so
// that neither waits for the other's check.
