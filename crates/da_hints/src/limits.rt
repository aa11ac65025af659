//! Limits that are exceeded: how many there are, and how many may be.
use crate::case::Case;
use crate::extents::{Extent, NOTHING, extent_of};
use crate::parts::blame_word;
use crate::shown::{widest_type, width_of_type};
use crate::site::{Part, line_of_main};
use crate::walk::{Step, Wanted};
use da_lang::{Expr, LimitKind, MainLine, Param, PatternTree};

/// Tells which limit is exceeded, and by how much.
pub fn tell_limit(which: LimitKind, case: &mut Case<'_>) {
    let extent = extent_at(case);
    let (form, count, most) = match which {
        LimitKind::Classes => (
            b"the program has $ classes".as_slice(),
            case.tree.classes.len(),
            32,
        ),
        LimitKind::Processes => (
            b"main makes $ processes up to this line".as_slice(),
            processes(case),
            64,
        ),
        LimitKind::Items => (ITEMS, extent.items, 16_384),
        LimitKind::Blocks => (BLOCKS, extent.blocks, 64),
        LimitKind::Variables => (VARIABLES, extent.slots, 1_024),
        LimitKind::Parts => (PARTS, most_parts(case), 255),
        LimitKind::Generators => (GENERATORS, most_generators(case), 8),
    };
    if count as u64 > most {
        let (count, most) = (case.digits(count as u64), case.digits(most));
        case.tell(form, count.as_slice(), b"");
        case.tell(b"; at most $ are allowed", most.as_slice(), b"");
    }
    match (case.site.class, which) {
        (_, LimitKind::Processes) => blame_word(b"new", case),
        (Some(class), LimitKind::Items | LimitKind::Blocks | LimitKind::Variables) => {
            blame_word(class.name.as_slice(), case);
            case.note(
                b"each call stands for a copy of its method: call large methods in fewer places, as in a loop",
            );
        }
        _ => {}
    }
}

const ITEMS: &[u8] = b"the class has $ statements, with a copy of a method for each call";

const BLOCKS: &[u8] =
    b"the class has $ blocks within each other, with a copy of a method for each call";

const VARIABLES: &[u8] =
    b"the class has $ variables, with a copy of the variables of a method for each call";

const PARTS: &[u8] = b"a tuple of $ parts stands here, a tag counted as one";

const GENERATORS: &[u8] =
    b"a query with $ generators stands here, those of queries inside counted too";

// The extent of the class that stands there, or nothing.
fn extent_at(case: &Case<'_>) -> Extent {
    match case.site.class {
        Some(class) => extent_of(case.alloc, class),
        None => NOTHING,
    }
}

// How many processes the lines of `main` make up to the one to blame.
fn processes(case: &Case<'_>) -> usize {
    let mut count = 0u64;
    for made in case.tree.main.as_slice() {
        if line_of_main(made) > case.line {
            break;
        }
        if let MainLine::New { count: own, .. } = made {
            count = count.saturating_add(own.unwrap_or(1));
        }
    }
    usize::try_from(count).unwrap_or(usize::MAX)
}

// How many parts the widest tuple has that stands there.
fn most_parts(case: &Case<'_>) -> usize {
    let mut most = match case.site.part {
        Part::Message(message) => {
            message
                .parts
                .len()
                .saturating_add(1)
                .max(widest_type(message.parts.as_slice()))
        }
        Part::Variable(_, ty) => width_of_type(ty),
        _ => 0,
    };
    if let (Part::Header, Some(body)) = (case.site.part, case.site.body) {
        most = most.max(widest_param(body.params));
    }
    for step in case.steps.as_slice() {
        most = most.max(match *step {
            Step::Whole(Expr::Tuple(parts), _, _) => parts.len(),
            Step::Pattern(PatternTree::Tuple(parts), _) => parts.len(),
            _ => 0,
        });
    }
    most
}

// How many parts the widest tuple has in the types of parameters.
fn widest_param(params: &[Param]) -> usize {
    let mut most = 0usize;
    for param in params {
        most = most.max(width_of_type(&param.ty));
    }
    most
}

// The most generators of a query with those of queries inside it. An aggregate of a variable counts as one.
fn most_generators(case: &Case<'_>) -> usize {
    let mut most = 0usize;
    let mut count = 0usize;
    for step in case.steps.as_slice() {
        match *step {
            Step::Gen(_) => count = count.saturating_add(1),
            Step::Name(_, Wanted::Argument) => count = count.saturating_add(1),
            Step::Whole(_, 0, _) => {
                most = most.max(count);
                count = 0;
            }
            _ => {}
        }
    }
    most
}

/// Tells whose plan has too many nodes.
pub fn tell_nodes(case: &mut Case<'_>) {
    let Some(class) = case.site.class else {
        return;
    };
    let name = class.name.as_slice();
    let form = b"the plan of the queries of the class @ has more than 4096 nodes";
    case.tell(form, name, b"");
    blame_word(name, case);
    case.note(
        b"each call of a method stands for a copy of its queries: ask fewer of them, or in a loop",
    );
}
