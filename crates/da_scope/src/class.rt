//! Classes.
ghost use Rattle.da_lang.specs.Resolution.{class_tables, resolved_class, run_items, setup_items};
ghost use Rattle.da_scope.specs.ClassView.{setup_params};
ghost use Rattle.std.specs.Prelude.{◌≡◌, [], IfOk, OnOk};

use crate::bodies::{Wanted, first_body};
use crate::copying::body;
use crate::handler::add_handlers;
use crate::home::Home;
use crate::labels::numbers_of;
use crate::methods::places_of;
use crate::slots::{declare_params, declare_variables};
use da_lang::{Class, ClassTree, Item};
use da_meaning::{Scope, Tables};
use da_values::{List, NoMemory, copy_bytes};
use std::alloc::Global;

/// A class of a program: its slots and queries are numbered, and its calls are inlined.
pub fn build_class(alloc: Global, class: &ClassTree) -> Result<Class, NoMemory>
    ensures { IfOk result (λ found. found ≡ resolved_class class.now) }
{
    let mut tables = Tables::new(alloc);
    let home = home_of(alloc, class, &mut tables)?;
    let (params, setup) = build_setup(alloc, &home, &mut tables)?;
    let run = build_run(alloc, &home, &mut tables)?;
    let mut handlers = List::new(alloc);
    add_handlers(alloc, &home, &mut handlers, &mut tables)?;
    let name = copy_bytes(alloc, class.name.as_slice())?;
    let (slots, queries) = tables.into_parts();
    Ok(Class {
        name,
        slots,
        params,
        setup,
        run,
        handlers,
        queries,
        line: class.line,
    })
}

// The slots of the parameters of `setup`, and its statements.
fn build_setup(
    alloc: Global,
    home: &Home<'_>,
    tables: &mut Tables,
) -> Result<(List<u16>, List<Item>), NoMemory>
    requires { tables.old ≡ class_tables home.now.class.now }
    ensures params { IfOk result (λ built. built.0 ≡ setup_params home.now.class.now) }
    ensures items { IfOk result (λ built. built.1 ≡ (setup_items home.now.class.now).0) }
    ensures tables { OnOk result (tables.new ≡ (setup_items home.now.class.now).1) }
{
    let entry = first_body(home.class, Wanted::Setup);
    let mut scope = home.scope.copy(alloc)?;
    let params = declare_params(alloc, entry.params, &mut scope, tables)?;
    let items = body(alloc, home, entry.stmts, &scope, tables)?;
    Ok((params, items))
}

// The statements of `run`.
fn build_run(alloc: Global, home: &Home<'_>, tables: &mut Tables) -> Result<List<Item>, NoMemory>
    ensures items { IfOk result (λ items. items ≡ (run_items home.now.class.now tables.old).0) }
    ensures tables { OnOk result (tables.new ≡ (run_items home.now.class.now tables.old).1) }
{
    let entry = first_body(home.class, Wanted::Run);
    body(alloc, home, entry.stmts, &home.scope, tables)
}

// The class with its variables, which get the first slots, the places of its methods, and the numbers of its labels.
fn home_of<'t>(
    alloc: Global,
    class: &'t ClassTree,
    tables: &mut Tables,
) -> Result<Home<'t>, NoMemory>
    requires { tables.old ≡ record { slots = []; queries = [] } }
    ensures class { IfOk result (λ home. home.class.now ≡ class.now) }
    ensures tables { OnOk result (tables.new ≡ class_tables class.now) }
{
    let mut scope = Scope::new(alloc);
    declare_variables(alloc, class.members.as_slice(), &mut scope, tables)?;
    let places = places_of(alloc, class.members.as_slice())?;
    let labels = numbers_of(alloc, class)?;
    Ok(Home {
        class,
        scope,
        places,
        labels,
    })
}
