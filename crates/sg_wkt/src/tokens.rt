ghost use Rattle.std.specs.Prelude.{◌≡◌, ◌≤◌, ◌-◌, length, take, drop, MatchOption};
ghost use Rattle.std.specs.List.{prefix_len};
ghost use Rattle.sg_wkt.specs.Tokens.{Ends, Begins, is_blank, is_mark, is_plain, token_len, tokens_from};

use crate::faults::{WktFault, WktKind};

/// Where reading has come to in a text.
#[derive(Clone, Copy)]
pub struct Cursor<'a> {
    text: &'a [u8],
    /// The index of the first byte that wasn't read.
    at: usize,
    ghost within: { at ≤ length text.now },
}

/// A token: its bytes, and the place of the first of them in the text.
#[derive(Clone, Copy)]
pub struct Span<'a> {
    pub at: usize,
    pub bytes: &'a [u8],
}

impl Span<'_> {
    /// What is wrong at this token.
    pub fn fault(self, kind: WktKind) -> WktFault
        ensures { result ≡ record { at = self.entry.at; kind = kind } }
    {
        WktFault { at: self.at, kind }
    }
}

impl<'a> Cursor<'a> {
    ghost use Rattle.sg_wkt.specs.Cursors.{left, seen, Gives};
    ghost use Rattle.sg_wkt.specs.Tokens.{tokens};
    ghost use Rattle.sg_wkt.specs.Grammar.{first};

    /// Before the first token of the text.
    pub fn new(text: &'a [u8]) -> Cursor<'a>
        ensures { left result ≡ tokens text.now }
    {
        Cursor { text, at: 0 }
    }

    /// The next token and what follows it: `None` where no token is left.
    pub fn token(self) -> Option<(Span<'a>, Cursor<'a>)>
        ensures { MatchOption result (left self.entry ≡ Ends (length self.entry.text.now))
            (λ r. left self.entry ≡ Begins (seen r.0) (left r.1)) }
    {
        let (begin, end) = next_token(self.text, self.at)?;
        let token = Span {
            at: begin,
            bytes: &self.text[begin..end],
        };
        let rest = Cursor {
            text: self.text,
            at: end,
        };
        Some((token, rest))
    }

    /// The next token, which must be there, and what follows it.
    pub fn first(self) -> Result<(Span<'a>, Cursor<'a>), WktFault>
        ensures { Gives (λ r. (seen r.0, left r.1)) result (first (left self.entry)) }
    {
        match self.token() {
            Some(next) => Ok(next),
            None => Err(WktFault {
                at: self.text.len(),
                kind: WktKind::End,
            }),
        }
    }
}

/// Where the next token begins and ends in the text, from a place on.
fn next_token(text: &[u8], at: usize) -> Option<(usize, usize)>
    requires { at ≤ length text.now }
    ensures token { MatchOption result (tokens_from at (drop at text.now) ≡ Ends (length text.now))
        (λ r. tokens_from at (drop at text.now)
        ≡ Begins (record { at = r.0; bytes = take (r.1 - r.0) (drop r.0 text.now) }) (tokens_from r.1 (drop r.1 text.now))) }
    ensures within { MatchOption result (at ≤ length text.now) (λ r. (r.0 ≤ r.1) × (r.1 ≤ length text.now)) }
{
    let begin = at + blank_len(&text[at..]);
    let rest = &text[begin..];
    if rest.is_empty() {
        return None;
    }
    Some((begin, begin + token_len(rest)))
}

/// How many blanks the text begins with.
fn blank_len(text: &[u8]) -> usize
    ensures value { result ≡ prefix_len is_blank text.now }
    ensures within { result ≤ length text.now }
{
    for (i, byte) in text.iter().enumerate() {
        if !is_blank(*byte) {
            return i;
        }
    }
    text.len()
}

/// How many bytes the token has that the text begins with.
fn token_len(text: &[u8]) -> usize
    ensures value { result ≡ token_len text.now }
    ensures within { result ≤ length text.now }
{
    match text {
        [first, ..] if is_mark(*first) => 1,
        _ => plain_len(text),
    }
}

/// How many bytes before the first blank, bracket or comma.
fn plain_len(text: &[u8]) -> usize
    ensures value { result ≡ prefix_len is_plain text.now }
    ensures within { result ≤ length text.now }
{
    for (i, byte) in text.iter().enumerate() {
        if !is_plain(*byte) {
            return i;
        }
    }
    text.len()
}

fn is_blank(byte: u8) -> bool
    ensures { result ≡ is_blank byte }
{
    byte == b' ' || byte == b'\t' || byte == b'\r' || byte == b'\n'
}

fn is_mark(byte: u8) -> bool
    ensures { result ≡ is_mark byte }
{
    byte == b'(' || byte == b')' || byte == b','
}

fn is_plain(byte: u8) -> bool
    ensures { result ≡ is_plain byte }
{
    !(is_blank(byte) || is_mark(byte))
}
