#![tactic(auto)]

// The walk and the exact check of one line, beside each other, for a test that asks both of the same lines (tests/walk).
ghost use Rattle.std.specs.Prelude.{◌<◌, IfSome};
ghost use Rattle.walked.specs.Passed.{SoundUpTo};

use layout::check::{kind_at, lowest_malformed};
use layout::rules::layout;
use pass::kind::pass_kind;
use text::fields::split;
use text::lines::{ends_at, plain_end};

// Where the line that starts at `from` ends, if the walk sees it to be sound.
fn walk(s: &[u8], from: usize) -> Option<usize>
    ensures { IfSome result (λ r. SoundUpTo s.now from r) }
{
    let mut ends = [0usize; 32];
    if s.len() < from {
        return None;
    }
    let passed = pass_kind(s, from, &mut ends)?;
    Some(passed.end)
}

// Where the line that starts at `from` ends, if the exact check finds no fault in its ending, its count of fields and each of them.
fn judge(s: &[u8], from: usize) -> Option<usize>
    ensures { IfSome result (λ r. SoundUpTo s.now from r) }
{
    let mut ends = [0usize; 32];
    if s.len() < from {
        return None;
    }
    let end = plain_end(s, from);
    if !ends_at(s, end) {
        return None;
    }
    let text = &s[from..end];
    let kind = kind_at(text)?;
    if split(text, &mut ends) != layout(kind).count {
        return None;
    }
    lowest_malformed(kind, text, &ends).ok()?;
    Some(end)
}

// Where the line that starts at `at` ends, if the walk sees it to be sound, or 0.
pub fn walked_end(s: &[u8], at: u64) -> u64
    ensures { 0 < result → SoundUpTo s.now at result }
{
    walk(s, at as usize).unwrap_or(0) as u64
}

// Where the line that starts at `at` ends, if the exact check finds no fault in its ending, its count of fields and each of them, or 0.
pub fn judged_end(s: &[u8], at: u64) -> u64
    ensures { 0 < result → SoundUpTo s.now at result }
{
    judge(s, at as usize).unwrap_or(0) as u64
}
