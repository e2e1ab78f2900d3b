// No code: that both engines answer alike, call by call. Read specs/EnginesAgree.antt.
#![tactic(auto)]
