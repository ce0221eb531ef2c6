ghost use Rattle.std.specs.Prelude.{◌≡◌, [], ◌∷◌, MatchOption, length, ◌≤◌, ◌<◌};
ghost use Rattle.sg_script.specs.Lines.{line_length, lines};

/// The byte that ends a line.
const LINE_FEED: u8 = b'\n';

/// The first line of a text, without its line feed, and the text after it: `None` exactly for the
/// empty text.
pub fn first_line(text: &[u8]) -> Option<(&[u8], &[u8])>
    ensures lines { MatchOption result (lines text.now ≡ []) (λ r. lines text.now ≡ r.0.now ∷ lines r.1.now) }
    ensures less { MatchOption result (text.now ≡ []) (λ r. length r.1.now < length text.now) }
{
    if text.is_empty() {
        return None;
    }
    let (line, rest) = text.split_at(line_length(text));
    match rest {
        [] => Some((line, rest)),
        [_, after @ ..] => Some((line, after)),
    }
}

/// How many bytes stand before the first line feed.
fn line_length(text: &[u8]) -> usize
    ensures value { result ≡ line_length text.now }
    ensures within { result ≤ length text.now }
{
    for (i, byte) in text.iter().enumerate() {
        if *byte == LINE_FEED {
            return i;
        }
    }
    text.len()
}
