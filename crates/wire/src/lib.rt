// What judging, writing and the calls share: refusals here, checks in an order in specs/.
#![tactic(auto)]

pub mod refusal; // why something is refused
