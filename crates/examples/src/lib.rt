// The worked examples: document 01's starred cases as one table, the file of cases 11 and 12, taps, and document 02's lists and crowding
// report. No code: see specs/ and proofs/.

#![tactic(auto)]
