//! What a request is to be answered with, by the phase and the method.
ghost use Rattle.lsp_server.specs.DueView.{due_view};
ghost use Rattle.lsp_server.specs.Session as spec;
ghost use Rattle.std.specs.List.{list_any};
ghost use Rattle.std.specs.Prelude.{◌≡◌};

use crate::fault::Fault;
use crate::phase::Phase;

/// What a request is to be answered with.
#[derive(Clone, Copy)]
pub enum Due {
    /// What the server can do.
    Begins,
    /// `null`.
    Ends,
    /// What is asked of a document.
    Known,
    /// That there is no answer, for this reason.
    Fails(Fault),
}

/// What a request of this method is to be answered with in a phase.
pub fn due_of(phase: Phase, method: &str) -> Due
    ensures { due_view result ≡ spec.due phase method.now }
{
    match phase {
        Phase::Fresh => due_fresh(method),
        Phase::Ready => due_ready(method),
        Phase::Down => Due::Fails(Fault::Invalid),
    }
}

// The same before `initialize`, and of it.
fn due_fresh(method: &str) -> Due
    ensures { due_view result ≡ spec.due Phase.Fresh method.now }
{
    if method == "initialize" {
        Due::Begins
    } else {
        Due::Fails(Fault::NotBegun)
    }
}

// The same between `initialize` and `shutdown`.
fn due_ready(method: &str) -> Due
    ensures { due_view result ≡ spec.due Phase.Ready method.now }
{
    if method == "initialize" {
        Due::Fails(Fault::Invalid)
    } else if method == "shutdown" {
        Due::Ends
    } else if is_known(method) {
        Due::Known
    } else {
        Due::Fails(Fault::NoMethod)
    }
}

/// The phase after a request.
pub fn phase_after(phase: Phase, method: &str) -> Phase
    ensures { result ≡ spec.phase_after phase method.now }
{
    match phase {
        Phase::Fresh => after_fresh(method),
        Phase::Ready => after_ready(method),
        Phase::Down => Phase::Down,
    }
}

fn after_fresh(method: &str) -> Phase
    ensures { result ≡ spec.phase_after Phase.Fresh method.now }
{
    if method == "initialize" {
        Phase::Ready
    } else {
        Phase::Fresh
    }
}

fn after_ready(method: &str) -> Phase
    ensures { result ≡ spec.phase_after Phase.Ready method.now }
{
    if method == "shutdown" {
        Phase::Down
    } else {
        Phase::Ready
    }
}

// Whether there is such a request on a document.
#[tactic(auto, unfolding(crate::specs::Session::known))]
fn is_known(method: &str) -> bool
    ensures { result ≡ list_any (spec.is_named method.now) spec.known }
{
    if method == "textDocument/hover" {
        return true;
    }
    if method == "textDocument/definition" {
        return true;
    }
    if method == "textDocument/references" {
        return true;
    }
    if method == "textDocument/documentSymbol" {
        return true;
    }
    if method == "textDocument/prepareRename" {
        return true;
    }
    if method == "textDocument/rename" {
        return true;
    }
    if method == "textDocument/codeAction" {
        return true;
    }
    if method == "textDocument/completion" {
        return true;
    }
    method == "textDocument/codeLens"
}
