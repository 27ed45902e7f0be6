//! How much of a port mapper's answer is shown.

ghost use Rattle.std.specs.Prelude.{◌≡◌, ◌++◌, ◌≤◌, ◌⊎◌, [], length, take};
ghost use Rattle.distping_report.specs.Shown.{count_feeds};

/// The most lines of a port mapper that are printed at once. Our own choice.
pub const MOST_SHOWN: u32 = 100;

// The length of the first lines of a text, at most this many.
#[tactic(auto, using(std::proofs::lemmas::List::Sums::count_by_more_yes, std::proofs::lemmas::List::Sums::count_by_more_no))]
fn front_length(text: &[u8], most: usize) -> usize
    ensures within { result ≤ length text.now }
    ensures most { count_feeds (take result text.now) ≤ most }
    ensures all { (result ≡ length text.now) ⊎ (count_feeds (take result text.now) ≡ most) }
{
    let (mut at, mut feeds) = (0, 0);
    while at < text.len() && feeds < most {
        if text[at] == b'\n' {
            feeds += 1;
        }
        at += 1;
    }
    at
}

/// The lines of a port mapper that are shown, and those that are left out.
pub fn split_shown(text: &[u8]) -> (&[u8], &[u8])
    ensures whole { text.now ≡ result.0.now ++ result.1.now }
    ensures most { count_feeds result.0.now ≤ 100 }
    // Nothing is left out that there is room for.
    ensures all { (result.1.now ≡ []) ⊎ (count_feeds result.0.now ≡ 100) }
{
    text.split_at(front_length(text, MOST_SHOWN as usize))
}

/// How many lines a text has; the last may lack its line feed.
pub fn count_lines(text: &[u8]) -> u32 {
    let feeds = text.iter().filter(|byte| **byte == b'\n').count();
    let open = if text.ends_with(b"\n") { 0 } else { 1 };
    u32::try_from(feeds)
        .unwrap_or(u32::MAX)
        .saturating_add(open)
}
