//! Which messages are still read.
ghost use Rattle.da_lang.specs.declared.query.RGen.{RGen};
ghost use Rattle.da_lang.specs.Live.{live_gen};
ghost use Rattle.da_lang.specs.Matching.{matched};
ghost use Rattle.da_lang.specs.World.{Data};
ghost use Rattle.da_values.specs.declared.val.Val.TheVariants as val;
ghost use Rattle.da_values.specs.Value.{val_of};
ghost use Rattle.history_live.specs.Reading.{CanGive, IsMatch, Matches};
ghost use Rattle.std.specs.Prelude.{◌≡◌, ◌↔◌, ◌&&◌, [], IsTrue, is_some};

use crate::live::Live;
use da_lang::{LivePattern, Source, same_source};
use da_pattern::matches_pattern;
use da_values::{Row, Value};
use std::alloc::Global;

// Whether both patterns match, with no slots and no row.
fn takes(alloc: Global, live: &LivePattern, m: &Value, peer: u16, me: u16) -> bool
    ensures { result ≡ (is_some (matched me [] live.now.message (val_of m.now) []) && is_some (matched me [] live.now.peer (val.Proc peer) [])) }
{
    let none = Row::new(alloc);
    matches_pattern(&live.message, m, &none, &none, me)
        && matches_pattern(&live.peer, &Value::Proc(peer), &none, &none, me)
}

// Whether the live pattern of a generator is one of this source that matches.
fn is_match(
    alloc: Global,
    live: &LivePattern,
    source: Source,
    m: &Value,
    peer: u16,
    me: u16,
) -> bool
    ensures { (g : RGen) → live.now ≡ live_gen g → (d : Data) → d.me ≡ me → IsTrue result ↔ IsMatch source (val_of m.now) peer d live.now }
{
    same_source(live.source, source) && takes(alloc, live, m, peer, me)
}

/// Whether a live pattern of the source matches a message and the other process. That is so in each process of this number,
/// whatever its slots are, since live patterns name no slot and no variable. It takes no memory.
pub fn matches(alloc: Global, live: &Live, source: Source, m: &Value, peer: u16, me: u16) -> bool
    requires { CanGive live.now.patterns }
    ensures { (d : Data) → d.me ≡ me → IsTrue result ↔ Matches live.now.patterns source (val_of m.now) peer d }
{
    let patterns = live.patterns.as_slice();
    for pattern in patterns {
        if is_match(alloc, pattern, source, m, peer, me) {
            return true;
        }
    }
    false
}
