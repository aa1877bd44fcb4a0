// No code: what the calls of the other crates mean together, shown of what a caller learns from their contracts.
#![tactic(auto)]
