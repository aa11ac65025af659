//! The processes that `main` makes.
ghost use Rattle.da_lang.specs.Resolution.{first_call, made, made_count, made_entry, procs_of, resolved_args, setup_call};
ghost use Rattle.da_scope.specs.MakingView.{made_by};
ghost use Rattle.std.specs.Prelude.{◌≡◌, ◌+◌, ◌<◌, ◌≤◌, ◌++◌, IfOk, IfSome, OnOk, flat_map, length, position, bytes_eq, unwrap_or};

use da_lang::{ClassTree, Expr, MainLine, ProcDecl, RExpr, SetupCall, Tree};
use da_meaning::{Scope, Tables, outside};
use da_values::{List, NoMemory};
use std::alloc::Global;

/// The names that lines of `main` make, of which the first counts. They are as many as the lines, so they have a map.
pub fn names_made<'t>(alloc: Global, lines: &'t [MainLine]) -> Result<Scope<'t>, NoMemory>
    requires { made_by lines.now ≤ 64 }
    ensures { IfOk result (λ scope. scope ≡ made 0 lines.now) }
{
    let mut scope = Scope::new(alloc);
    let mut before = processes_made(lines);
    let mut rest = lines;
    while let Some((line, earlier)) = rest.split_last() {
        before -= count_made(line);
        enter_line(before, line, &mut scope)?;
        rest = earlier;
    }
    scope.with_index(alloc)
}

// How many processes some lines make.
fn processes_made(lines: &[MainLine]) -> u16
    requires { made_by lines.now ≤ 64 }
    ensures { result ≡ made_by lines.now }
{
    let mut count = 0u16;
    for line in lines {
        count += count_made(line);
    }
    count
}

// How many processes a line makes.
fn count_made(line: &MainLine) -> u16
    requires { made_count line.now ≤ 64 }
    ensures { result ≡ made_count line.now }
{
    match line {
        MainLine::New { count, .. } => match count {
            None => 1,
            Some(count) => *count as u16,
        },
        MainLine::Setup { .. } => 0,
    }
}

// The name that a line makes after so many processes comes into scope.
fn enter_line<'t>(before: u16, line: &'t MainLine, scope: &mut Scope<'t>) -> Result<(), NoMemory>
    requires { before + made_count line.now ≤ 64 }
    ensures { OnOk result (scope.new ≡ made_entry before line.now ++ scope.old) }
{
    match line {
        MainLine::New { name, count, .. } => scope.enter_made(name.as_slice(), *count, before),
        MainLine::Setup { .. } => Ok(()),
    }
}

/// The processes that `main` makes.
pub fn processes(alloc: Global, t: &Tree) -> Result<List<ProcDecl>, NoMemory>
    requires made { made_by t.now.main ≤ 64 }
    requires classes { length t.now.classes ≤ 32 }
    ensures { IfOk result (λ procs. procs ≡ flat_map (procs_of t.now) t.now.main) }
{
    let scope = names_made(alloc, t.main.as_slice())?;
    let mut procs = List::new(alloc);
    for line in t.main.as_slice() {
        add_processes(alloc, t, line, &scope, &mut procs)?;
    }
    Ok(procs)
}

// The processes that a line makes, after others.
fn add_processes<'t>(
    alloc: Global,
    t: &'t Tree,
    line: &MainLine,
    scope: &Scope<'t>,
    procs: &mut List<ProcDecl>,
) -> Result<(), NoMemory>
    requires scope { scope.now ≡ made 0 t.now.main }
    requires made { made_count line.now ≤ 64 }
    requires classes { length t.now.classes ≤ 32 }
    ensures { OnOk result (procs.new ≡ procs.old ++ procs_of t.now line.now) }
{
    match line {
        MainLine::New { name, class, .. } => {
            let class = place_of(t.classes.as_slice(), class.as_slice());
            for turn in 0..count_made(line) {
                let setup = setup_of(alloc, name.as_slice(), t.main.as_slice(), scope)?;
                procs.push(ProcDecl { class, setup })?;
            }
            Ok(())
        }
        MainLine::Setup { .. } => Ok(()),
    }
}

// The place of the first class of a name, counted from 0. A name without a class is refused before.
fn place_of(classes: &[ClassTree], name: &[u8]) -> u16
    requires { length classes.now ≤ 32 }
    ensures { result ≡ unwrap_or (position (λ c. bytes_eq c.name name.now) classes.now) 0 }
{
    match class_named(classes, name) {
        None => 0,
        Some(place) => place as u16,
    }
}

// The place of the first class of a name, counted from 0, where there is one.
fn class_named(classes: &[ClassTree], name: &[u8]) -> Option<usize>
    ensures place { result ≡ position (λ c. bytes_eq c.name name.now) classes.now }
    ensures within { IfSome result (λ place. place < length classes.now) }
{
    classes
        .iter()
        .position(|class| class.name.as_slice() == name)
}

// The first line of `setup` for a name.
fn setup_of<'t>(
    alloc: Global,
    name: &[u8],
    lines: &'t [MainLine],
    scope: &Scope<'t>,
) -> Result<Option<SetupCall>, NoMemory>
    ensures { IfOk result (λ call. call ≡ first_call (flat_map (setup_call scope.now name.now) lines.now)) }
{
    for line in lines {
        let call = call_of(alloc, name, line, scope)?;
        if call.is_some() {
            return Ok(call);
        }
    }
    Ok(None)
}

// The arguments of a line of `setup` for a name.
fn call_of<'t>(
    alloc: Global,
    name: &[u8],
    line: &'t MainLine,
    scope: &Scope<'t>,
) -> Result<Option<SetupCall>, NoMemory>
    ensures { IfOk result (λ call. call ≡ first_call (setup_call scope.now name.now line.now)) }
{
    match line {
        MainLine::New { .. } => Ok(None),
        MainLine::Setup {
            name: other,
            args,
            line,
        } => {
            if other.as_slice() != name {
                return Ok(None);
            }
            let args = arguments(alloc, args.as_slice(), scope)?;
            Ok(Some(SetupCall { args, line: *line }))
        }
    }
}

// Arguments of `setup`, which have no queries.
fn arguments<'t>(alloc: Global, xs: &'t [Expr], scope: &Scope<'t>) -> Result<List<RExpr>, NoMemory>
    ensures { IfOk result (λ args. args ≡ resolved_args scope.now xs.now) }
{
    let mut args = List::new(alloc);
    for x in xs {
        let mut tables = Tables::new(alloc);
        args.push(outside(alloc, x, scope, &mut tables)?)?;
    }
    Ok(args)
}
