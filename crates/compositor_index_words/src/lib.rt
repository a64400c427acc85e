// The words of dew's BandIndex by definition, and their laws. There is no code here.

#![tactic(auto)]
