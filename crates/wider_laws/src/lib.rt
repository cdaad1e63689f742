// No code: what was so under the limits before document 02 raised them is so under those in force.
#![tactic(auto)]
