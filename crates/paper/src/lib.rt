// No code: the paper's examples P1 to P10 stand in specs/, and are proved in proofs/.
#![tactic(auto)]
