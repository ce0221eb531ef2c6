ghost use Rattle.std.specs.Prelude.{◌≡◌, [], ◌∷◌, MatchOption, IfSome, ◌≤◌, ◌<◌, length};
ghost use Rattle.sg_script.specs.Fields.{after_blanks, after_field, field, is_blank, is_skipped, word_length, words};

fn is_blank(byte: u8) -> bool
    ensures { result ≡ is_blank byte }
{
    byte == b' ' || byte == b'\t' || byte == b'\r'
}

/// The text from its first byte that isn't blank.
pub fn skip_blanks(text: &[u8]) -> &[u8]
    ensures { result.now ≡ after_blanks text.now }
{
    for (i, byte) in text.iter().enumerate() {
        if !is_blank(*byte) {
            return &text[i..];
        }
    }
    &[]
}

/// The first field of a line, without bytes where the line has none, and the text after it.
pub fn first_field(text: &[u8]) -> (&[u8], &[u8])
    ensures field { result.0.now ≡ field text.now }
    ensures rest { result.1.now ≡ after_field text.now }
{
    let text = skip_blanks(text);
    text.split_at(word_length(text))
}

/// The first field of a line, and the text after it: `None` exactly where the line has no field.
pub fn next_field(text: &[u8]) -> Option<(&[u8], &[u8])>
    ensures words { MatchOption result (words text.now ≡ []) (λ r. words text.now ≡ r.0.now ∷ words r.1.now) }
    ensures less { IfSome result (λ r. length r.1.now < length text.now) }
{
    let (field, rest) = first_field(text);
    if field.is_empty() {
        None
    } else {
        Some((field, rest))
    }
}

/// How many bytes stand before the first blank.
fn word_length(text: &[u8]) -> usize
    ensures value { result ≡ word_length text.now }
    ensures within { result ≤ length text.now }
{
    for (i, byte) in text.iter().enumerate() {
        if is_blank(*byte) {
            return i;
        }
    }
    text.len()
}

/// Whether a line says nothing: it is blank, or a comment.
pub fn is_skipped(line: &[u8]) -> bool
    ensures { result ≡ is_skipped line.now }
{
    match skip_blanks(line) {
        [] => true,
        [first, ..] => *first == b'#',
    }
}
