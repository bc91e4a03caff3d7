// A square block of an accepted side: what writing and reading symbols both ask of it, how large it is at most, and that
// its scan meets each of its places. There is no function here.
#![tactic(auto)]
