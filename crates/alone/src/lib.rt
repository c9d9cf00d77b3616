// One box, whoever it talks to: what it holds and sends by its own inputs and the messages that it received; in specs/.
#![tactic(auto)]
