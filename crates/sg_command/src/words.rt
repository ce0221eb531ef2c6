ghost use Rattle.std.specs.Prelude.{◌≡◌, true, false, [], ◌∷◌, ◌++◌, length, slice_get, map, bytes_eq, IfSome, IfNone, IfOk, MatchOption, OnOk, OnErr, IfErr};
ghost use Rattle.std.specs.List.{list_all, list_any};
ghost use Rattle.std.specs.Option.{option_copied};
ghost use Rattle.sg_command.specs.Words.{IsForm, form_of, texts};
ghost use Rattle.sg_command.specs.Usage.{is_spoken, may_stand, option_words};

use crate::forms::{Form, form_in};
use sg_shape::Back;
use std::alloc::{AllocError, Global};
use std::marker::Model;

/// The words that follow the program's name.
#[derive(Debug, Drop)]
pub struct Words {
    words: Vec<Vec<u8>>,
}

impl Model for Words {
    ghost use Rattle.std.specs.Prelude.{List, ℕ, map};

    ghost Value = { List (List ℕ) };

    ghost view = { λ w. map (λ word. word.items) w.words.items };
}

impl Words {
    /// No words. It takes no memory, and keeps the allocator for its own growth.
    pub fn new(alloc: Global) -> Words
        ensures { result ≡ [] }
    {
        Words {
            words: Vec::new(alloc),
        }
    }

    /// Puts a word last. Without memory for it the words stay as they were, and the word comes back.
    pub fn push(&mut self, word: Vec<u8>) -> Result<(), Back<Vec<u8>>>
        ensures ok { OnOk result (self.new ≡ self.old ++ word.items ∷ []) }
        ensures err { OnErr result (self.new ≡ self.old) }
        ensures back { IfErr result (λ back. back.item.items ≡ word.items) }
    {
        self.words.push(word)?;
        Ok(())
    }

    /// How many words there are.
    pub fn len(&self) -> usize
        ensures { result ≡ length self.now }
    {
        self.words.as_slice().len()
    }

    /// The word at a place, counted from 0: `None` exactly past the end.
    pub fn at(&self, place: usize) -> Option<&[u8]>
        ensures { option_copied result ≡ slice_get self.now place }
    {
        match self.words.as_slice().get(place) {
            Some(word) => Some(word.as_slice()),
            None => None,
        }
    }

    /// What the words ask for: `None` where they have no form. It fails only where there is no memory to read them.
    pub fn form(&self, alloc: Global) -> Result<Option<Form>, AllocError>
        ensures form { IfOk result (λ form. form ≡ form_of self.now) }
        ensures within { IfOk result (λ form. IfSome form IsForm) }
    {
        match texts_of(alloc, self.words.as_slice())? {
            Some(texts) => form_in(alloc, texts.as_slice()),
            None => Ok(None),
        }
    }
}

/// The words as texts, where each may stand: `None` where one is of no form.
fn texts_of(alloc: Global, words: &[Vec<u8>]) -> Result<Option<Vec<&str>>, AllocError>
    ensures some { IfOk result (λ found. IfSome found (λ list. (map (λ word. word.now) list.items ≡ texts words.now) × (list_all may_stand (texts words.now) ≡ true))) }
    ensures none { IfOk result (λ found. IfNone found (list_all is_spoken (texts words.now) ≡ false)) }
{
    let mut list = Vec::new(alloc);
    for word in words {
        let Some(text) = text_of(word) else {
            return Ok(None);
        };
        list.push(text)?;
    }
    Ok(Some(list))
}

/// The word as a text, where it may stand.
fn text_of(word: &[u8]) -> Option<&str>
    ensures { MatchOption result (is_spoken word.now ≡ false) (λ text. (text.now ≡ word.now) × (may_stand word.now ≡ true)) }
{
    if !may_stand(word) {
        return None;
    }
    match str::from_utf8(word) {
        Ok(text) => Some(text),
        Err(_) => None,
    }
}

/// A word that isn't empty, has no `=`, isn't `help`, and begins with `-` only as an option.
fn may_stand(word: &[u8]) -> bool
    ensures { result ≡ may_stand word.now }
{
    match word {
        [] => false,
        [first, ..] => {
            !word.contains(&b'=')
                && word != b"help".as_slice()
                && (*first != b'-' || is_option(word))
        }
    }
}

fn is_option(word: &[u8]) -> bool
    ensures { result ≡ list_any (bytes_eq word.now) option_words }
{
    word == b"--workers".as_slice()
        || word == b"--labels".as_slice()
        || word == b"--trace".as_slice()
}
