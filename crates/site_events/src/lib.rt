//! What can happen to the sites of a cluster and to what was sent: definitions alone.
#![tactic(auto)]
