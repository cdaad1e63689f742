// No code: that the endpoint's own session passes when it is judged.
#![tactic(auto)]
