// The promises that are about more than one call, and the sheet's worked examples. Theory only: see specs/ and proofs/.
#![tactic(auto)]
