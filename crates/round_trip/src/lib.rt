// What is written reads back as it was, and a file that passes is written again byte for byte; why a writer is refused; how long such files
// can be. Theorems alone.
#![tactic(auto)]
