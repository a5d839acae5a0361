// The driver in front of anything that answers: its state, its start, a frame and a reply, for any state at all. Definitions and theorems; no code.
#![tactic(auto)]
