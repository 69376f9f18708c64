// No code: stations on one segment (specs/Segment.antt), and that one Master remains (specs/Theorems.antt).
#![tactic(auto)]
