//! The bodies of a class.
ghost use Rattle.da_lang.specs.ClassParts.{body_in, params_if, stmts_if};
ghost use Rattle.da_scope.specs.HomeView.{parts, parts_in, wanted_of, wants};
ghost use Rattle.std.specs.Option.{option_map};
ghost use Rattle.std.specs.Prelude.{◌≡◌, [], ◌∷◌, filter_map, find};

use da_lang::{ClassTree, Member, Param, Stmt};

/// A body that is asked for.
#[derive(Clone, Copy)]
pub enum Wanted {
    /// That of `setup`.
    Setup,
    /// That of `run`.
    Run,
}

/// The parameters and the statements of a body.
#[derive(Clone, Copy)]
pub struct Body<'t> {
    pub params: &'t [Param],
    pub stmts: &'t [Stmt],
}

/// The first body of a class that is wanted, which is empty where there is none.
pub fn first_body<'t>(class: &'t ClassTree, wanted: Wanted) -> Body<'t>
    ensures params { result.params.now ≡ params_if (wanted_of wanted class.now) }
    ensures stmts { result.stmts.now ≡ stmts_if (wanted_of wanted class.now) }
{
    for member in class.members.as_slice() {
        if let Some(body) = body_of(member, wanted) {
            return body;
        }
    }
    Body {
        params: &[],
        stmts: &[],
    }
}

/// The body of a member, which is empty where it has none.
pub fn whole_body<'t>(member: &'t Member) -> Body<'t>
    ensures params { result.params.now ≡ params_if (body_in member.now) }
    ensures stmts { result.stmts.now ≡ stmts_if (body_in member.now) }
{
    match member {
        Member::Var { .. } => Body {
            params: &[],
            stmts: &[],
        },
        Member::Setup { params, body, .. } => Body {
            params: params.as_slice(),
            stmts: body.as_slice(),
        },
        Member::Run { body, .. } => Body {
            params: &[],
            stmts: body.as_slice(),
        },
        Member::Method { params, body, .. } => Body {
            params: params.as_slice(),
            stmts: body.as_slice(),
        },
        Member::Receive { body, .. } => Body {
            params: &[],
            stmts: body.as_slice(),
        },
    }
}

// The body of a member that is wanted.
fn body_of<'t>(member: &'t Member, wanted: Wanted) -> Option<Body<'t>>
    ensures { option_map parts_in result ≡ option_map parts (find (λ b. wants wanted b.place) (filter_map body_in (member.now ∷ []))) }
{
    match member {
        Member::Setup { params, body, .. } => match wanted {
            Wanted::Setup => Some(Body {
                params: params.as_slice(),
                stmts: body.as_slice(),
            }),
            Wanted::Run => None,
        },
        Member::Run { body, .. } => match wanted {
            Wanted::Run => Some(Body {
                params: &[],
                stmts: body.as_slice(),
            }),
            Wanted::Setup => None,
        },
        Member::Var { .. } | Member::Method { .. } | Member::Receive { .. } => None,
    }
}
