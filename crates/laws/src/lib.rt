// Laws on tests, lists and lent slices that several crates cite. It has no code: see proofs/.
// Nothing stands below it but the language's library.
#![tactic(auto)]
