//! Names that are not what their place asks for.
use crate::case::Case;
use crate::elsewhere::{
    note_handler, note_otherwise, note_quoted, note_sender, note_tag, note_within,
};
use crate::labels::tell_no_label;
use crate::parts::{blame_place, blame_source, blame_word, place_of, written};
use crate::scope::{Role, Scope, role_name};
use crate::site::{Part, enter_before, line_of_main};
use crate::typing::enter_gen;
use crate::walk::{Step, Wanted};
use da_lang::{Expr, MainLine, Member, ScopeKind, Stmt, Tree, Ty};
use da_values::List;
use text_hints::{Nearest, said_in};

/// A name that breaks a rule, or an expression where a name is wanted.
#[derive(Clone, Copy)]
pub enum Misuse<'t> {
    Name(&'t [u8], Wanted),
    Form(&'t Expr),
}

/// Tells which name is unknown.
pub fn tell_unknown(case: &mut Case<'_>) {
    if tell_target(case) || tell_callee(case) {
        return;
    }
    match misuse_at(ScopeKind::Unknown, case) {
        Some(Misuse::Name(name, wanted)) => tell_name(name, wanted, case),
        Some(Misuse::Form(x)) => tell_form(x, case),
        None => tell_no_label(case),
    }
}

/// The first name of what stands on the line that breaks the rule of this kind. What is in scope there stays so.
pub fn misuse_at<'t>(kind: ScopeKind, case: &mut Case<'t>) -> Option<Misuse<'t>> {
    let mut outside = List::new(case.alloc);
    for step in case.steps.as_slice() {
        match *step {
            Step::Name(name, wanted) => {
                if kind == ScopeKind::Unknown && !serves(name, wanted, &case.scope) {
                    return Some(Misuse::Name(name, wanted));
                }
            }
            Step::Fresh(name, role) => {
                if kind == ScopeKind::Shadow && is_variable(name, &case.scope) {
                    return Some(Misuse::Name(name, Wanted::Fresh));
                }
                // the names of a handler are in scope in its body alone
                if role != Role::HandlerVariable || kind == ScopeKind::Shadow {
                    case.scope.enter(name, role, None);
                }
            }
            Step::Form(x) => {
                if kind == ScopeKind::Unknown {
                    return Some(Misuse::Form(x));
                }
            }
            Step::Open => {
                let _ = outside.push(case.scope.len());
            }
            Step::Gen(generator) => enter_gen(generator, Role::QueryVariable, &mut case.scope),
            Step::Close => case.scope.leave_to(outside.pop().unwrap_or(0)),
            Step::Whole(_, _, _) | Step::Pattern(_, _) => {}
        }
    }
    None
}

fn is_variable(name: &[u8], scope: &Scope<'_>) -> bool {
    match scope.look(name) {
        None => false,
        Some(entry) => entry.role != Role::Made,
    }
}

// Whether a name stands for what is wanted.
fn serves(name: &[u8], wanted: Wanted, scope: &Scope<'_>) -> bool {
    match scope.look(name) {
        None => false,
        Some(entry) => {
            wanted == Wanted::Value
                || (entry.role != Role::QueryVariable && entry.role != Role::Made)
        }
    }
}

// A name that is set and is no variable of the class.
fn tell_target(case: &mut Case<'_>) -> bool {
    let Part::Statement(stmt) = case.site.part else {
        return false;
    };
    let (name, value, plain) = match stmt {
        Stmt::Assign { name, value, .. } => (name.as_slice(), value.get(), true),
        Stmt::Add { name, value, .. } => (name.as_slice(), value.get(), false),
        Stmt::Del { name, value, .. } => (name.as_slice(), value.get(), false),
        _ => return false,
    };
    match case.scope.look(name).map(|entry| entry.role) {
        Some(Role::ClassVariable) => return false,
        Some(role) => {
            let form = b"@ is $, and only variables of the class are changed";
            case.tell(form, name, role_name(role));
            case.note(b"keep the value in a variable of the class with a name of its own (var ..)");
        }
        None => {
            match case.site.class {
                Some(class) => {
                    let form = b"the class @ has no variable @";
                    case.tell(form, class.name.as_slice(), name);
                }
                None => case.tell(b"there is no variable @", name, b""),
            }
            note_declaration(name, value, plain, case);
        }
    }
    blame_word(name, case);
    true
}

// How the name would be declared, or which one is meant.
fn note_declaration<'t>(name: &'t [u8], value: &'t Expr, plain: bool, case: &mut Case<'t>) {
    case.note_meant(nearest_to(name, Wanted::Fresh, case));
    let shown = match case.type_of(value) {
        Some(ty) => case.shown(&ty),
        None => case.shown(&Ty::Int),
    };
    let form = if plain {
        b"variables are declared in the class: var $: $".as_slice()
    } else {
        b"variables are declared in the class: var $: set[$]"
    };
    case.note_of(form, name, shown.as_slice());
}

// The name in scope, or the word that could stand in its place, that is most like a name.
fn nearest_to<'t>(name: &'t [u8], wanted: Wanted, case: &Case<'t>) -> Option<&'t [u8]> {
    let mut nearest = Nearest::new(case.alloc, name);
    for entry in case.scope.entries() {
        nearest.offer(entry.name);
    }
    if wanted == Wanted::Source {
        nearest.offer(b"received");
        nearest.offer(b"sent");
    } else if wanted == Wanted::Value {
        nearest.offer(b"true");
        nearest.offer(b"false");
        nearest.offer(b"self");
    }
    nearest.found()
}

// A method, a class or a name of `main` that is not there.
fn tell_callee(case: &mut Case<'_>) -> bool {
    let tree = case.tree;
    let mut names = List::new(case.alloc);
    let (form, holder, name) = match (case.site.part, case.site.class) {
        (Part::Statement(Stmt::Call { name, .. }), Some(class)) => {
            for member in class.members.as_slice() {
                if let Member::Method { name: other, .. } = member {
                    let _ = names.push(other.as_slice());
                }
            }
            let form = b"the class @ has no method @".as_slice();
            (form, class.name.as_slice(), name.as_slice())
        }
        (Part::Main(MainLine::New { class, .. }), _) => {
            for other in tree.classes.as_slice() {
                let _ = names.push(other.name.as_slice());
            }
            (
                b"there is no class $@".as_slice(),
                b"".as_slice(),
                class.as_slice(),
            )
        }
        (Part::Main(MainLine::Setup { name, .. }), _) => {
            put_made(tree, case.line, &mut names);
            (NOT_MADE, b"".as_slice(), name.as_slice())
        }
        _ => return false,
    };
    if names.as_slice().contains(&name) {
        return false;
    }
    case.tell(form, holder, name);
    blame_word(name, case);
    let called = !holder.is_empty();
    let cure = said_in(&CALLS, name);
    if called && !cure.is_empty() {
        case.note(cure);
    } else if !(called && note_tag(name, case)) {
        note_names(name, names.as_slice(), called, case);
    }
    true
}

/// Words of statements that look like the names of methods where a bracket follows.
const WORDS: [&[u8]; 5] = [b"output", b"await", b"send", b"while", b"receive"];

// Which of these names is meant, or which word of a statement, where a method is called; or which of them there are.
fn note_names<'t>(name: &'t [u8], names: &[&'t [u8]], called: bool, case: &mut Case<'t>) {
    let mut nearest = Nearest::new(case.alloc, name);
    for other in names {
        nearest.offer(other);
    }
    if called {
        for word in &WORDS {
            nearest.offer(word);
        }
    }
    let found = nearest.found();
    case.note_meant(found);
    if found.is_some() {
        return;
    }
    if called {
        if names.is_empty() {
            case.note_of(
                b"a method is defined in its class: def $(x: int):",
                name,
                b"",
            );
        } else {
            note_list(b"the only method is @", b"the methods are @", names, case);
        }
    } else if matches!(case.site.part, Part::Main(MainLine::New { .. })) {
        if names.is_empty() {
            case.note_of(
                b"a class stands before main: class $ extends process:",
                name,
                b"",
            );
            return;
        }
        note_list(b"the only class is @", b"the classes are @", names, case);
    } else if !names.is_empty() {
        note_list(b"made before it is @", b"made before it are @", names, case);
    }
}

/// The names that are listed at most.
const MOST_LISTED: usize = 8;

// Lists the names that there are, of which there is one at least.
fn note_list(one: &[u8], more: &[u8], names: &[&[u8]], case: &mut Case<'_>) {
    let mut form = if names.len() == 1 { one } else { more };
    for (place, name) in names.iter().enumerate() {
        if place == MOST_LISTED {
            case.hint.notes.put(b", ..");
            break;
        }
        case.hint.notes.fill(form, name, b"");
        form = b", @".as_slice();
    }
    case.note(b"");
}

// Adds the names that `main` makes before a line.
fn put_made<'t>(tree: &'t Tree, line: u32, names: &mut List<&'t [u8]>) {
    for made in tree.main.as_slice() {
        if let MainLine::New { name, .. } = made {
            if line_of_main(made) < line {
                let _ = names.push(name.as_slice());
            }
        }
    }
}

/// What is written in the place of calls of other languages.
const CALLS: [&[u8]; 10] = [
    b"print|println|write|log ~ write output(..): it takes one value, which may be a tuple",
    b"sleep|wait ~ write await and a condition",
    b"start ~ a process starts by an event of the schedule, as move 1",
    b"exit|quit|stop|terminate ~ a process ends with the last line of run",
    b"broadcast|multicast|sendall|send_all ~ write send ('ping', 5) to ps, where ps is a set of processes (set[proc])",
    b"assert ~ write if not (..): and below it output(..), which a hunt can look for",
    b"append|add ~ write s.add(e)",
    b"remove|del ~ write s.del(e)",
    b"recv ~ a handler takes messages: receive ('ping', k) from who:",
    b"super ~ there is no inheritance",
];

const NOT_MADE: &[u8] = b"no line before this one makes $@ by new(..)";

// A name that is unknown, or that is not what is wanted.
fn tell_name<'t>(name: &'t [u8], wanted: Wanted, case: &mut Case<'t>) {
    if wanted == Wanted::Source {
        blame_source(name, case);
    } else {
        blame_word(name, case);
    }
    if let Some(role) = case.scope.look(name).map(|entry| entry.role) {
        case.tell(b"@ is $, and ", name, role_name(role));
        case.say(if wanted == Wanted::Source {
            b"a query goes through received, sent, or a variable of the class or the body".as_slice()
        } else {
            b"count, sum, min and max are of a variable of the class or the body, or of {t: x in s}"
        });
        return;
    }
    let form = if matches!(case.site.part, Part::Main(_)) {
        NOT_MADE
    } else {
        b"there is no variable, parameter or pattern variable $@ here"
    };
    case.tell(form, b"", name);
    let cure = said_in(&VALUES, name);
    if !cure.is_empty() {
        case.note(cure);
    } else if !note_otherwise(name, case)
        && !note_quoted(name, case)
        && !note_within(name, case)
        && !note_elsewhere(name, case)
    {
        note_value(name, wanted, case);
    }
}

// Where else the name is in scope.
fn note_elsewhere(name: &[u8], case: &mut Case<'_>) -> bool {
    let Some(class) = case.site.class else {
        return false;
    };
    if matches!(case.site.part, Part::Header) {
        case.note(b"the names of the patterns of a handler are in scope in its body alone");
        return true;
    }
    let mut scope = Scope::new(case.alloc, &[]);
    enter_before(class, case.line, &mut scope);
    let Some(entry) = scope.look(name) else {
        return false;
    };
    let line = case.digits(u64::from(entry.line));
    let form = b"line $ has the name as $, and it is in scope in its block alone";
    case.note_of(form, line.as_slice(), role_name(entry.role));
    true
}

// The name that is meant, or where a name could come from.
fn note_value<'t>(name: &'t [u8], wanted: Wanted, case: &mut Case<'t>) {
    let found = nearest_to(name, wanted, case);
    if found.is_none() && wanted != Wanted::Value {
        case.note(b"sets are kept in variables of the class (var s: set[int])");
    }
    case.note_meant(found);
    let unlike = found.is_none() && wanted == Wanted::Value;
    if unlike && !note_handler(name, case) && !note_sender(name, case) {
        note_none(name, case);
    }
}

// Which names there are, and how another one comes to be there.
fn note_none(name: &[u8], case: &mut Case<'_>) {
    if case.site.class.is_none() {
        return;
    }
    let mut names = List::new(case.alloc);
    for entry in case.scope.entries() {
        let _ = names.push(entry.name);
    }
    if !names.as_slice().is_empty() {
        let (one, more) = (
            b"in scope here is @".as_slice(),
            b"in scope here are @".as_slice(),
        );
        note_list(one, more, names.as_slice(), case);
    }
    let form = b"a variable of the class is declared so, and set before it is read: var $: int";
    case.note_of(form, name, b"");
}

/// What is written in the place of values of other languages.
const VALUES: [&[u8]; 7] = [
    b"True|TRUE ~ write true",
    b"False|FALSE ~ write false",
    b"None|null|nil|NULL|undefined|Nil ~ there is no None: a set that is empty, or a variable of type bool, says that nothing is there",
    b"this|me|myself|id|pid ~ write self for the process itself",
    b"msg|message|sender ~ receive (..) from p: names the message's parts and its sender by patterns",
    b"time|now|clock ~ the logical clock is logical_time()",
    b"all|everyone|everybody|others ~ write send ('ping', 5) to ps, where ps is a set of processes (set[proc])",
];

// An argument of an aggregate that is neither a name nor a comprehension.
fn tell_form(x: &Expr, case: &mut Case<'_>) {
    let place = place_of(x, case);
    blame_place(place, case);
    let form = b"count, sum, min and max are of a variable or of {t: x in s}, and not of $";
    let written = written(place, case);
    case.tell(form, written.as_slice(), b"");
    case.note(b"put it into a variable first, and take that");
}
