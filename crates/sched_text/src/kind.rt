//! The kinds of actions, by the words that their lines begin with.
ghost use Rattle.sched_text.specs.ActionReading.{fault_named, kind_named, kind_word, moved_named, told_named};
ghost use Rattle.sched_text.specs.ActionText.{fault_word};
ghost use Rattle.std.specs.Prelude.{◌≡◌, IfNone, IfSome};
ghost use Rattle.sched_text.specs.declared.kind.Kind.{Kind};
ghost use Rattle.da_lang.specs.declared.event.FaultKind.{FaultKind};

use da_lang::FaultKind;

/// What an action is. `da_lang::Action` says what each of them means.
#[derive(Clone, Copy, PartialEq, Eq)]
pub enum Kind {
    Took,
    Sent,
    Got,
    Lost,
    Again,
    Out,
    End,
    Fault,
    Answer,
    Kept,
    Stop,
}

/// The kind of action that a word names.
pub(crate) fn kind_of(word: &[u8]) -> Option<Kind>
    ensures value { result ≡ kind_named word.now }
    ensures some { IfSome result (λ kind. word.now ≡ kind_word kind) }
{
    match moved_of(word) {
        Some(kind) => Some(kind),
        None => told_of(word),
    }
}

// A move, or what happened to a message, by its word.
fn moved_of(word: &[u8]) -> Option<Kind>
    ensures value { result ≡ moved_named word.now }
    ensures some { IfSome result (λ kind. word.now ≡ kind_word kind) }
{
    if word == b"took".as_slice() {
        Some(Kind::Took)
    } else if word == b"sent".as_slice() {
        Some(Kind::Sent)
    } else if word == b"got".as_slice() {
        Some(Kind::Got)
    } else if word == b"lost".as_slice() {
        Some(Kind::Lost)
    } else if word == b"again".as_slice() {
        Some(Kind::Again)
    } else {
        None
    }
}

// What else is told of a process or of a run, by its word.
fn told_of(word: &[u8]) -> Option<Kind>
    ensures value { result ≡ told_named word.now }
    ensures some { IfSome result (λ kind. word.now ≡ kind_word kind) }
{
    if word == b"out".as_slice() {
        Some(Kind::Out)
    } else if word == b"end".as_slice() {
        Some(Kind::End)
    } else if word == b"fault".as_slice() {
        Some(Kind::Fault)
    } else if word == b"answer".as_slice() {
        Some(Kind::Answer)
    } else if word == b"kept".as_slice() {
        Some(Kind::Kept)
    } else if word == b"stop".as_slice() {
        Some(Kind::Stop)
    } else {
        None
    }
}

/// A kind of fault by its word.
pub(crate) fn fault_of(word: &[u8]) -> Option<FaultKind>
    ensures value { result ≡ fault_named word.now }
    ensures some { IfSome result (λ kind. word.now ≡ fault_word kind) }
    ensures none { IfNone result ((kind : FaultKind) → word.now ≡ fault_word kind → ⊥) }
{
    if word == b"overflow".as_slice() {
        Some(FaultKind::Overflow)
    } else if word == b"divide".as_slice() {
        Some(FaultKind::Divide)
    } else if word == b"range".as_slice() {
        Some(FaultKind::Range)
    } else if word == b"message".as_slice() {
        Some(FaultKind::Message)
    } else if word == b"toolong".as_slice() {
        Some(FaultKind::TooLong)
    } else {
        None
    }
}
