#![tactic(auto)]

// Two lines of a script in either order: see specs/Order. No function is here, only the claim and its proof, above `model` and beside the code, so that
// neither waits for the other's check.
