// What the bodies of the calls share has no code: what a call answers to C is in specs/, the laws from the audit to the call in proofs/.
#![tactic(auto)]
