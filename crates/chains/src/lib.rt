// No code: lists of calls of the C functions, each as its promise says, each on what the one before left; and the three demands over them.
#![tactic(auto)]
