// What holds of every 16-card cabinet that 28 lets pass. Theory alone: specs/ has the claims, proofs/ their proofs.
#![tactic(auto)]
