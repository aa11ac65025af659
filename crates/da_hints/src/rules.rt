//! Rules of names that are about what stands at a place: calls, waiting, `setup` and arguments.
use crate::case::Case;
use crate::parts::{blame_expr, blame_word};
use crate::rows::rows_of;
use crate::site::Part;
use crate::walk::Step;
use da_bodies::{Body, Place, body_of};
use da_lang::{ClassTree, Expr, MainLine, Member, Param, Stmt};
use da_values::List;
use std::alloc::Global;
use text_hints::{Nearest, is_one_of};

/// Tells that a method calls itself.
pub fn tell_recursive(case: &mut Case<'_>) {
    let (Part::Statement(Stmt::Call { name, .. }), Some(body)) = (case.site.part, case.site.body)
    else {
        return;
    };
    let Place::Method(holder) = body.place else {
        return;
    };
    let name = name.as_slice();
    if holder == name {
        case.tell(b"the method @ calls itself", name, b"");
    } else {
        let form = b"the method @ calls @, which leads back to it";
        case.tell(form, holder, name);
    }
    case.note(b"each call stands for a copy of the method, so calls do not go round: write a loop");
    blame_word(name, case);
}

/// Tells what waits in a handler or in `setup`.
pub fn tell_yield(case: &mut Case<'_>) {
    let in_setup = match case.site.body {
        Some(body) => matches!(body.place, Place::Setup),
        None => false,
    };
    case.say(if in_setup {
        b"setup".as_slice()
    } else {
        b"a handler"
    });
    match (case.site.part, case.site.class) {
        (Part::Statement(Stmt::Call { name, .. }), Some(class)) => {
            case.tell(b" may not wait, and the method @", name.as_slice(), b"");
            tell_waiting(class, name.as_slice(), case);
            blame_word(name.as_slice(), case);
        }
        (Part::Statement(Stmt::Label { .. }), _) => {
            case.say(b" may not wait, and this label is a place to wait");
            blame_word(b"--", case);
        }
        _ => {
            case.say(b" may not wait: here stands an 'await'");
            blame_word(b"await", case);
        }
    }
    case.note(b"let it give a variable a value, and let run wait for that: await done");
}

// Where a method waits.
fn tell_waiting(class: &ClassTree, name: &[u8], case: &mut Case<'_>) {
    let mut reached = List::new(case.alloc);
    let _ = reached.push(name);
    for place in 0..class.members.len() {
        let Some(next) = reached.get(place).copied() else {
            break;
        };
        if let Some(line) = own_wait(case.alloc, class, next, &mut reached) {
            let line = case.digits(u64::from(line));
            case.tell(
                if place == 0 {
                    b" does so in line $".as_slice()
                } else {
                    b" leads to a place to wait, in line $"
                },
                line.as_slice(),
                b"",
            );
            return;
        }
    }
    case.say(b" leads to a place to wait");
}

// The line of the first place to wait in the method of a name itself. Where there is none, the methods that it calls are added.
fn own_wait<'t>(
    alloc: Global,
    class: &'t ClassTree,
    name: &[u8],
    reached: &mut List<&'t [u8]>,
) -> Option<u32> {
    let body = body_in(class, Some(name))?;
    for row in rows_of(alloc, body.stmts).as_slice() {
        match row.part {
            Part::Wait(_) => return Some(row.line),
            Part::Statement(Stmt::Label { .. }) => return Some(row.line),
            Part::Statement(Stmt::Call { name, .. }) => put_once(name.as_slice(), reached),
            _ => {}
        }
    }
    None
}

fn put_once<'t>(name: &'t [u8], out: &mut List<&'t [u8]>) {
    if !out.as_slice().contains(&name) {
        let _ = out.push(name);
    }
}

/// The first method of a name, or `setup`.
fn body_in<'t>(class: &'t ClassTree, method: Option<&[u8]>) -> Option<Body<'t>> {
    for member in class.members.as_slice() {
        if let Some(body) = body_of(member) {
            let wanted = match (body.place, method) {
                (Place::Setup, None) => true,
                (Place::Method(name), Some(method)) => name == method,
                _ => false,
            };
            if wanted {
                return Some(body);
            }
        }
    }
    None
}

/// Tells what `setup` may not do.
pub fn tell_setup(case: &mut Case<'_>) {
    let is_main = matches!(case.site.part, Part::Main(_));
    if let Part::Statement(stmt) = case.site.part {
        if tell_early(stmt, case) {
            return;
        }
    }
    let Some(query) = first_query(is_main, case) else {
        return;
    };
    if !is_main {
        case.say(b"setup may not ask a query");
        case.note(EARLY);
    } else {
        case.say(if matches!(query, Expr::Clock) {
            b"an argument of setup may not read logical_time()".as_slice()
        } else {
            b"an argument of setup may not ask a query"
        });
        case.note(b"main only makes the processes: give run what it needs to work it out");
    }
    blame_expr(query, case);
}

// A statement that may not stand in the body of `setup`, whatever is in it.
fn tell_early(stmt: &Stmt, case: &mut Case<'_>) -> bool {
    let word = match stmt {
        Stmt::Send { .. } => b"send".as_slice(),
        Stmt::Output { .. } => b"output",
        Stmt::While { .. } => b"while",
        Stmt::For { .. } => b"for",
        Stmt::Call { name, .. } => name.as_slice(),
        _ => return false,
    };
    if matches!(stmt, Stmt::Call { .. }) {
        case.tell(b"setup may not call a method: @", word, b"");
    } else {
        case.tell(b"@ may not stand in setup", word, b"");
    }
    blame_word(word, case);
    case.note(EARLY);
    true
}

/// What `setup` is for.
const EARLY: &[u8] =
    b"setup gives variables their first values, before the process starts: do it in run";

// The first query of what stands on the line, or the first reading of the clock where that counts.
fn first_query<'t>(clock: bool, case: &Case<'t>) -> Option<&'t Expr> {
    for step in case.steps.as_slice() {
        if let Step::Whole(x, 0, _) = *step {
            let counts = match x {
                Expr::Quant { .. } | Expr::Comp { .. } => true,
                Expr::Count(_) | Expr::Sum(_) | Expr::Min(_, _) | Expr::Max(_, _) => true,
                Expr::Clock => clock,
                _ => false,
            };
            if counts {
                return Some(x);
            }
        }
    }
    None
}

/// Tells which class has no `run`.
pub fn tell_norun(case: &mut Case<'_>) {
    let Some(class) = case.site.class else {
        return;
    };
    let name = class.name.as_slice();
    let form = b"the class @ has no method 'run', with which its processes begin";
    case.tell(form, name, b"");
    match nearly_run(case.alloc, class) {
        Some((other, line)) => {
            let line = case.digits(u64::from(line));
            let form = b"line $ defines @: a process begins with def run():";
            case.note_of(form, line.as_slice(), other);
        }
        None => {
            case.note(
                b"where a process only answers messages: def run(): and below it await false",
            );
        }
    }
    blame_word(name, case);
}

// The first method whose name is like `run`, or which stands for it in other languages, and its line.
fn nearly_run(alloc: Global, class: &ClassTree) -> Option<(&[u8], u32)> {
    for member in class.members.as_slice() {
        if let Member::Method { name, line, .. } = member {
            let name = name.as_slice();
            let mut nearest = Nearest::new(alloc, name);
            nearest.offer(b"run");
            if nearest.found().is_some() || is_one_of(name, b"start|begin|go|execute") {
                return Some((name, *line));
            }
        }
    }
    None
}

/// Tells how many arguments there are, and how many are wanted.
pub fn tell_arity(case: &mut Case<'_>) {
    match (case.site.part, case.site.class) {
        (Part::Statement(Stmt::Call { name, args, .. }), Some(class)) => {
            case.tell(b"the method @", name.as_slice(), b"");
            put_arity(params_of(class, Some(name.as_slice())), args.len(), case);
            blame_word(name.as_slice(), case);
        }
        (Part::Main(MainLine::Setup { name, args, .. }), _) => {
            if let Some(class) = class_made(name.as_slice(), case) {
                case.tell(b"setup of the class @", class.name.as_slice(), b"");
                put_arity(params_of(class, None), args.len(), case);
                note_no_setup(class, case);
                blame_word(b"setup", case);
            }
        }
        _ => {}
    }
}

// Which method looks like a `setup`, where the class has none.
fn note_no_setup(class: &ClassTree, case: &mut Case<'_>) {
    if !params_of(class, None).is_empty() {
        return;
    }
    for member in class.members.as_slice() {
        if let Member::Method { name, line, .. } = member {
            let mut nearest = Nearest::new(case.alloc, name.as_slice());
            nearest.offer(b"setup");
            if nearest.found().is_some() || is_one_of(name.as_slice(), INITIAL) {
                let line = case.digits(u64::from(*line));
                let form = b"line $ defines @: first values are given by def setup(x: int):";
                case.note_of(form, line.as_slice(), name.as_slice());
                return;
            }
        }
    }
}

/// The names that stand for `setup` in other languages.
const INITIAL: &[u8] = b"__init__|init|initialize|initialise|constructor|create";

// How many arguments are wanted, and how many there are.
fn put_arity(params: &[Param], count: usize, case: &mut Case<'_>) {
    case.say(b" takes ");
    case.hint
        .sentence
        .count(params.len(), b"argument", b"arguments");
    case.say(b", and ");
    case.hint.sentence.count(count, b"is", b"are");
    case.say(b" given");
    let mut form = b"wanted: ($: $".as_slice();
    for param in params {
        let shown = case.shown(&param.ty);
        case.hint
            .notes
            .fill(form, param.name.as_slice(), shown.as_slice());
        form = b", $: $";
    }
    if !params.is_empty() {
        case.note(b")");
    }
}

/// The parameters of the first method of a name, or of `setup`.
pub fn params_of<'t>(class: &'t ClassTree, method: Option<&[u8]>) -> &'t [Param] {
    match body_in(class, method) {
        Some(body) => body.params,
        None => &[],
    }
}

/// The class of which `main` makes a name.
pub fn class_made<'t>(name: &[u8], case: &Case<'t>) -> Option<&'t ClassTree> {
    let tree = case.tree;
    for made in tree.main.as_slice() {
        if let MainLine::New {
            name: other,
            class,
            ..
        } = made
        {
            if other.as_slice() == name {
                return tree
                    .classes
                    .as_slice()
                    .iter()
                    .find(|one| one.name == *class);
            }
        }
    }
    None
}
