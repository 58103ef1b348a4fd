// Demand 3: how near the equidistant conic projection comes to Snyder's exact value, and a map point to itself when it is taken to the globe
// and forth again. No code: the exact value and the statements are in specs/, what shows them in proofs/.

#![tactic(auto)]
