// No code: scripts and the segment at their end (specs/Scripted.antt), and that one Master remains (specs/Theorems.antt).
#![tactic(auto)]
