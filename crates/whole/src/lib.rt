#![tactic(auto)]

// The whole numbers: theory only. Its rooms are under proofs/, and proofs/Whole.antt is the door.
