// Document 01, "Checked by hand": the ten starred cases, as rows of one table that one theorem checks (specs/Starred.antt).
#![tactic(auto)]
