// From the microphone to the clerk: there is no code here, only what is claimed of the calls of the C surface, of the
// recorder and of the judge together.
#![tactic(auto)]
