ghost use Rattle.std.specs.Prelude.{◌≡◌, ◌≤◌, ◌<◌, ◌+◌, ◌^◌, ◌∷◌, ◌++◌, [], ℕ, List, true, IfOk, OnOk, length};
ghost use Rattle.std.specs.Char.{len_utf8};
ghost use Rattle.std.specs.List.{take_while};
ghost use Rattle.query_lexemes.specs.declared.letter.Class.TheVariants.{Blank};
ghost use Rattle.query_lexemes.specs.SortItems.{plain_letters};
ghost use Rattle.query_lexemes.specs.Lexemes.{tail, place, odd_place};
ghost use Rattle.query_lexemes.specs.Letters.{letters as letters_of, letters_from, shared, plain, escape, stands, is_blank, is_white, is_plus, is_special, goes_on, begins_word, is_unsupported, is_lone, spoils, belongs, run as run_of, past, at_front, text_of as text_of_letters, has_escape as has_an_escape};

use field_schema::{NoMemory, Text};
use std::alloc::Global;

/// A character of a query text, or an escape with the character that it stands for.
#[derive(Clone, Copy, Debug, PartialEq, Eq)]
pub struct Letter {
    /// The place of its first byte in the text.
    pub at: usize,
    /// The place of the first byte by which it is not U+3000.
    pub odd: usize,
    /// The character that it stands for.
    pub code: char,
    /// Whether it is an escape.
    pub escaped: bool,
}

/// What runs of letters are made of.
#[derive(Clone, Copy, Debug, PartialEq, Eq)]
pub(crate) enum Class {
    Blank,
    Word,
    Quote,
    Run,
    Space,
    Item,
    Name,
}

impl Letter {
    // Whether it is this character, and no escape.
    pub(crate) fn is(self, c: char) -> bool
        ensures { result ≡ stands c self }
    {
        !self.escaped && self.code == c
    }

    pub(crate) fn is_blank(self) -> bool
        ensures { result ≡ is_blank self }
    {
        !self.escaped && is_white(self.code)
    }

    // Whether a word can go on with it.
    pub(crate) fn goes_on(self) -> bool
        ensures { result ≡ goes_on self }
    {
        self.escaped || !(is_white(self.code) || is_special(self.code))
    }

    // Whether a word can begin with it.
    pub(crate) fn begins_word(self) -> bool
        ensures { result ≡ begins_word self }
    {
        self.goes_on() && (self.escaped || !is_plus(self.code))
    }

    // Whether it asks for what is not supported.
    pub(crate) fn is_unsupported(self) -> bool
        ensures { result ≡ is_unsupported self }
    {
        let c = self.code;
        !self.escaped && (c == '^' || c == '~' || c == '?' || c == '/')
    }

    // Whether it is a `\` at the end of the text.
    pub(crate) fn is_lone(self) -> bool
        ensures { result ≡ is_lone self }
    {
        self.is('\\')
    }

    // Whether it may not follow a `*` directly.
    pub(crate) fn spoils(self) -> bool
        ensures { result ≡ spoils self }
    {
        self.goes_on() || self.is('*') || self.is('?') || self.is_lone()
    }

    fn belongs(self, class: Class) -> bool
        ensures { result ≡ belongs class self }
    {
        match class {
            Class::Blank => self.is_blank(),
            Class::Word => self.goes_on(),
            Class::Quote => !(self.is('"') || self.is_lone()),
            Class::Run => !(self.is_blank() || self.is(']') || self.is('}') || self.is_lone()),
            Class::Space => self.is(' '),
            Class::Name => !(self.is_blank() || self.is(',')),
            Class::Item => !(self.is(' ') || self.is('}')),
        }
    }
}

fn is_white(c: char) -> bool
    ensures { result ≡ is_white c }
{
    c == ' ' || c == '\t' || c == '\n' || c == '\r' || c == '\u{3000}'
}

fn is_plus(c: char) -> bool
    ensures { result ≡ is_plus c }
{
    c == '+' || c == '-'
}

// Whether it is a special character that does not go on a word.
fn is_special(c: char) -> bool
    ensures { result ≡ is_special c }
{
    c == '!'
        || c == '('
        || c == ')'
        || c == ':'
        || c == '^'
        || c == '['
        || c == ']'
        || c == '"'
        || c == '{'
        || c == '}'
        || c == '~'
        || c == '*'
        || c == '?'
        || c == '\\'
        || c == '/'
}

// How many bytes U+3000 and the character have in common at their beginning, and U+3000 has one more.
fn shared(c: char) -> usize
    ensures value { result ≡ shared c }
    ensures fits { result ≤ len_utf8 c }
{
    match c {
        '\u{3000}'..='\u{303f}' => 2,
        '\u{3040}'..='\u{3fff}' => 1,
        _ => 0,
    }
}

// A character that stands for itself.
fn plain(at: usize, c: char) -> Letter
    requires { at + len_utf8 c < 2 ^ 64 }
    ensures { result ≡ plain at c }
{
    Letter {
        at,
        odd: at + shared(c),
        code: c,
        escaped: false,
    }
}

// A character behind the `\` at a place.
fn escape(at: usize, c: char) -> Letter
    ensures { result ≡ escape at c }
{
    Letter {
        at,
        odd: at,
        code: c,
        escaped: true,
    }
}

/// The letters of a text, in their order. It costs the text's length.
pub fn letters(alloc: Global, text: &str) -> Result<Vec<Letter>, NoMemory>
    ensures { IfOk result (λ v. v.items ≡ letters_of text.now) }
{
    let mut found = Vec::new(alloc);
    let mut at = 0usize;
    let mut escaping = false;
    for c in text.chars() {
        escaping = add_letter(&mut found, escaping, at, c)?;
        at += c.len_utf8();
    }
    add_lone(&mut found, escaping, at)?;
    Ok(found)
}

/// The letters of a text in which nothing is an escape. It costs the text's length.
pub fn plain_letters(alloc: Global, text: &str) -> Result<Vec<Letter>, NoMemory>
    ensures { IfOk result (λ v. v.items ≡ plain_letters text.now) }
{
    let mut found = Vec::new(alloc);
    let mut at = 0usize;
    for c in text.chars() {
        found.push(plain(at, c))?;
        at += c.len_utf8();
    }
    Ok(found)
}

// Puts the letter of a character behind the others, where a `\` stood before it or not; whether it is such a `\`.
#[tactic(auto, unfolding(crate::specs::Letters::letters_from))]
fn add_letter(found: &mut Vec<Letter>, escaping: bool, at: usize, c: char) -> Result<bool, NoMemory>
    requires fits { at + len_utf8 c < 2 ^ 64 }
    requires behind { escaping ≡ true → 1 ≤ at }
    ensures { IfOk result (λ escapes. (cs : List ℕ) → found.old.items ++ letters_from escaping at (c ∷ cs)
        ≡ found.new.items ++ letters_from escapes (at + len_utf8 c) cs) }
{
    if escaping {
        found.push(escape(at - 1, c))?;
        return Ok(false);
    }
    if c == '\\' {
        return Ok(true);
    }
    found.push(plain(at, c))?;
    Ok(false)
}

// Puts the letter of a `\` at the end of the text behind the others, where there is one.
#[tactic(auto, unfolding(crate::specs::Letters::letters_from))]
fn add_lone(found: &mut Vec<Letter>, escaping: bool, at: usize) -> Result<(), NoMemory>
    requires { escaping ≡ true → 1 ≤ at }
    ensures { OnOk result (found.new.items ≡ found.old.items ++ letters_from escaping at []) }
{
    if escaping {
        found.push(plain(at - 1, '\\'))?;
    }
    Ok(())
}

// How many letters the run in front has.
fn run_length(class: Class, letters: &[Letter]) -> usize
    ensures { result ≡ length (take_while (belongs class) letters.now) }
{
    letters.iter().take_while(|l| l.belongs(class)).count()
}

// The run in front, as long as it can be, and what stands behind it.
#[tactic(auto, using(crate::proofs::Runs::taken), unfolding(crate::specs::Letters::run, crate::specs::Letters::past))]
pub(crate) fn split_run(class: Class, letters: &[Letter]) -> (&[Letter], &[Letter])
    ensures run { result.0.now ≡ run_of class letters.now }
    ensures rest { result.1.now ≡ past class letters.now }
{
    letters.split_at(run_length(class, letters))
}

// The letters without the white space in front.
pub(crate) fn skip(letters: &[Letter]) -> &[Letter]
    ensures { result.now ≡ past Blank letters.now }
{
    split_run(Class::Blank, letters).1
}

// Whether the first letter is this character, and no escape.
pub(crate) fn begins_with(letters: &[Letter], c: char) -> bool
    ensures { result ≡ at_front (stands c) letters.now }
{
    match letters.first() {
        Some(l) => l.is(c),
        None => false,
    }
}

// The text that the letters stand for.
pub(crate) fn text_of(alloc: Global, letters: &[Letter]) -> Result<Text, NoMemory>
    ensures { IfOk result (λ t. t ≡ text_of_letters letters.now) }
{
    let mut text = String::new(alloc);
    for letter in letters {
        text.push(letter.code)?;
    }
    Ok(Text::new(text))
}

// Whether some letter is an escape.
pub(crate) fn has_escape(letters: &[Letter]) -> bool
    ensures { result ≡ has_an_escape letters.now }
{
    letters.iter().any(|l| l.escaped)
}

// The letters but the first.
pub(crate) fn tail(letters: &[Letter]) -> &[Letter]
    ensures { result.now ≡ tail letters.now }
{
    match letters.split_first() {
        Some((_, rest)) => rest,
        None => letters,
    }
}

// The place of the first letter, or the end of the text.
pub(crate) fn place(end: usize, letters: &[Letter]) -> usize
    ensures { result ≡ place end letters.now }
{
    match letters.first() {
        Some(l) => l.at,
        None => end,
    }
}

// The place of the first byte that is no white space's, or the end of the text.
pub(crate) fn odd_place(end: usize, letters: &[Letter]) -> usize
    ensures { result ≡ odd_place end letters.now }
{
    match letters.first() {
        Some(l) => l.odd,
        None => end,
    }
}

pub(crate) fn begins_blank(letters: &[Letter]) -> bool
    ensures { result ≡ at_front is_blank letters.now }
{
    match letters.first() {
        Some(l) => l.is_blank(),
        None => false,
    }
}

pub(crate) fn begins_lone(letters: &[Letter]) -> bool
    ensures { result ≡ at_front is_lone letters.now }
{
    match letters.first() {
        Some(l) => l.is_lone(),
        None => false,
    }
}
