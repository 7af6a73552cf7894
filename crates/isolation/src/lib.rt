#![tactic(auto)]

// Two parties on one table, each as if it were alone: see specs/Isolation. No function is here, only the claim and its proof, above `model` and beside
// the code, so that neither waits for the other's check.
