// Drawings of a sheet, their totals and certificates: definitions and theory. There is no code here.
#![tactic(auto)]
