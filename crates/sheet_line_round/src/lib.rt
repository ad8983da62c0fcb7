// Theory: what is written as a line reads back, accepted bytes are the very bytes written, an altered byte is refused.
#![tactic(auto)]
