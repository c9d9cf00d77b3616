// Honest runs: what every box holds and sends when all follow the protocol, and that no check refuses them; in specs/.
#![tactic(auto)]
