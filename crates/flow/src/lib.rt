// One way of one channel between two gateways, seen with full message numbers: see specs/Flow.antt. There is no code here.
#![tactic(auto)]
