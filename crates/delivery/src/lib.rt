// Demand 3 over bytes that arrive in pieces: a theorem in specs/ about the calls of session and the receiver of wrapping. There is no code
// here: a host calls stream::receive, and hands each frame to its end.
#![tactic(auto)]
