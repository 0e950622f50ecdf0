#![tactic(auto)]

// The three demands, that every promise pins its outcome, and the five impostors: theory only, over the promises of the calls.
