// Document 01's starred cases, proved of the definitions. There is no code here.

#![tactic(auto)]
