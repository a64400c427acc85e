// The band row as dew works it out in f64, against the exact row. There is no code here.

#![tactic(auto)]
