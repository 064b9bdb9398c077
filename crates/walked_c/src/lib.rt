#![tactic(auto)]

// The walk and the exact check of one line, exported to C for tests/walk: each calls the function of the library walked that has its name
// and its contract.
ghost use Rattle.std.specs.Prelude.{◌<◌};
ghost use Rattle.walked.specs.Passed.{SoundUpTo};

// Where the line that starts at `at` ends, if the walk sees it to be sound, or 0.
#[unsafe(no_mangle)]
pub extern "C" fn walked_end(s: &[u8], at: u64) -> u64
    ensures { 0 < result → SoundUpTo s.now at result }
{
    walked::walked_end(s, at)
}

// Where the line that starts at `at` ends, if the exact check finds no fault in its ending, its count of fields and each of them, or 0.
#[unsafe(no_mangle)]
pub extern "C" fn judged_end(s: &[u8], at: u64) -> u64
    ensures { 0 < result → SoundUpTo s.now at result }
{
    walked::judged_end(s, at)
}
