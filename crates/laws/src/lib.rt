#![tactic(auto)]

// Laws of the definitions in `model`: what every call keeps, how a table's words hold a state, what next due and leap answer. No function is here, only
// proofs, which the crates of the code and the claims about lists of calls cite. They stand apart from `model` so that trying a wrong definition
// against its computed cases does not wait for them.
