#![tactic(auto)]

// What an independent reference answered, computed from the meaning: the lines of files, enquiries, limits and what is printed. Each module
// is one theorem that names no miss. No code, and a crate of its own, so that nothing else waits for the computing.
