// What the walks share, as laws: no code. A part of the port: users call `sdf`.
#![tactic(auto)]
